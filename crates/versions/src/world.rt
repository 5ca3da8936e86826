//! Versions over a `World`: each call takes the place, as `world::publish(&mut w, ..)`.

pub use local_versions::{
    Built, Item, LocalNearby, LocalStore, LocalView, LocalWalk, PlaceRefused, StoreRefused, build,
    build_list, draft, len, locate, look_up, look_up_counted, passes_leave_one, place, publish,
    segments_are_few, sweeps_leave_none, version, version_at, versions_stay, view_of, walk,
};
