//! Rows: neighbouring segments of a version.

ghost use Rattle.std.specs.Prelude.{◌≡◌, IfOk};
ghost use Rattle.version_views.specs.Items.{row_keys, shared_items};

use std::alloc::{AllocError, Global};
use std::sync::Arc;

/// Neighbouring segments of a version, 1 to 1023 of them, and the greatest key of each but the last. `R` is how a place owns
/// the segments of a row. Versions that have the row share its keys.
#[derive(Drop)]
pub struct Row<K, R> {
    pub(crate) segments: R,
    pub(crate) separators: Arc<Vec<K>, Global>,
}

impl<K, R> Row<K, R> {
    /// A row of these segments, as plain data: that it is one is a fact of those who keep it.
    pub fn new(segments: R, separators: Arc<Vec<K>, Global>) -> Self
        ensures { result ≡ record { segments = segments; separators = separators } }
    {
        Row {
            segments,
            separators,
        }
    }

    /// The owners of its segments.
    pub fn owners(&self) -> &R
        ensures { result.now ≡ self.now.segments }
    {
        &self.segments
    }

    /// The greatest key of each segment but the last.
    pub fn keys(&self) -> &[K]
        ensures { result.now ≡ row_keys self.now }
    {
        &self.separators
    }

    /// The same keys, for another version to share. No key is cloned. Fails only where more than `2^62` share them.
    pub fn shared_keys(&self) -> Result<Arc<Vec<K>, Global>, AllocError>
        ensures { IfOk result (λ keys. shared_items keys ≡ row_keys self.now) }
    {
        Arc::try_clone(&self.separators)
    }

    /// The owners of its segments: all that is left of it.
    pub fn into_owners(self) -> R
    where
        K: Drop,
        ensures { result ≡ self.segments }
    {
        let Row {
            segments,
            separators: _,
        } = self;
        segments
    }

    /// The owners of its segments, and the greatest key of each but the last.
    pub fn into_parts(self) -> (R, Arc<Vec<K>, Global>)
        ensures { record { segments = result.0; separators = result.1 } ≡ self }
    {
        let Row {
            segments,
            separators,
        } = self;
        (segments, separators)
    }
}
