//! Guards of a place that threads share.

ghost use Rattle.std.specs.Prelude.{◌≡◌, Bool, [], ℕ, ◌+◌, ◌<◌, ◌≤◌, ◌%◌, ◌↔◌, true, IsErr, IfOk, IfErr, IfSome, IfNone, OnOk, OnErr};

use crate::domain::Domain;
use crate::holds::Holds;
use crate::local::Local;
use crate::shared::Shared;
use domain_table::steps;
use parted::Life;
use sdd_plain::epoch::Epoch;
use sdd_plain::refusal::Nested;

/// How many guards of a participant are open after one more opening, where `nesting` of them are. None at the end of
/// this count, `2^32 - 1`.
pub fn deeper(nesting: u32) -> Option<u32>
    ensures some { IfSome result (λ n. n ≡ nesting + 1) }
    ensures none { IfNone result (nesting ≡ 4294967295) }
{
    nesting.checked_add(1)
}

/// An open guard of a participant. It must be consumed by `close`. It belongs to the participant's `Local`, and is used
/// with that alone. While it is borrowed, what was loaded under it can be read.
pub struct Guard {
    pub(crate) participant: usize,
    pub(crate) life: Life,
    ghost one: { life.count ≡ 1 },
}

impl Guard {
    ghost use Rattle.sdd_domain.specs.CellSteps.{StepsOnNoCell};
    ghost use Rattle.sdd_domain.specs.Tokens.{place_of, home_of, number_of, own_of, hand_of, born_of, misses_of, participant_of, nest_of, nest_in, closed, IsSame, IsInNest, HasBegunNest, OpensNone, deepened};

    /// Opens a guard of a participant, within those that it has open. An outermost opening reads the count of raises,
    /// and publishes it in a second step; where it isn't the one that was found before, the participant's bags move
    /// on. From then until the outermost closing the count is raised at most once.
    #[inline(always)]
    pub fn new<T: Holds>(domain: &Domain<T>, local: &mut Local<T>) -> Result<Guard, Nested>
        requires { home_of local.old ≡ place_of domain.now }
        ensures guard { IfOk result (λ g. (participant_of g ≡ number_of local.old) × (nest_of g ≡ nest_in local.new)) }
        ensures nested { IsErr result ↔ ((own_of local.old).nesting ≡ 4294967295) }
        ensures refused { OnErr result (OpensNone local.old local.new) }
        ensures outermost { (own_of local.old).nesting ≡ 0 → HasBegunNest local.old local.new }
        ensures inner { 0 < (own_of local.old).nesting → (born_of local.new ≡ born_of local.old) × (nest_in local.new ≡ nest_in local.old) }
        ensures counted { OnOk result (0 < (own_of local.old).nesting → own_of local.new ≡ deepened (own_of local.old)) }
        ensures same { IsSame local.old local.new }
        ensures cells { StepsOnNoCell local.old local.new }
    {
        let Some(nesting) = deeper(local.own.nesting) else {
            return Err(Nested);
        };
        let life = if nesting == 1 {
            local.begin(domain)
        } else {
            local.deepen(nesting)
        };
        Ok(Guard {
            participant: local.number,
            life,
        })
    }

    /// The participant whose guard it is.
    pub fn participant(&self) -> usize
        ensures { result ≡ participant_of self.now }
    {
        self.participant
    }

    /// The epoch of the place: its count of raises modulo 64. It is the one of the guard's publication, or the next.
    pub fn epoch<T: Holds>(&self, domain: &Domain<T>, local: &mut Local<T>) -> Epoch
        requires home { home_of local.old ≡ place_of domain.now }
        requires mine { nest_of self.now ≡ nest_in local.old }
        requires open { 0 < (own_of local.old).nesting }
        ensures epoch { (count : ℕ) × (result ≡ count % 64) × (born_of local.old ≤ count) × (count ≤ born_of local.old + 1) }
        ensures same { IsInNest local.old local.new × (own_of local.new ≡ own_of local.old) × (born_of local.new ≡ born_of local.old) }
        ensures cells { StepsOnNoCell local.old local.new }
    {
        let epoch = local.own.previous;
        Epoch::of_count(steps::count_under(domain.words(), &mut local.seat, epoch))
    }

    /// Whether the flag was set since the participant's bags were last found empty.
    pub fn has_garbage<T: Holds>(&self, local: &Local<T>) -> bool
        requires { nest_of self.now ≡ nest_in local.now }
        ensures { result ≡ (own_of local.now).garbage }
    {
        local.own.garbage
    }

    /// Sets that flag, so that a later closing scans.
    pub fn set_has_garbage<T: Holds>(&self, local: &mut Local<T>)
        requires { nest_of self.now ≡ nest_in local.old }
        ensures set { own_of local.new ≡ record (own_of local.old) { garbage = true } }
        ensures same { IsInNest local.old local.new × (born_of local.new ≡ born_of local.old) }
        ensures cells { StepsOnNoCell local.old local.new }
    {
        local.own.garbage = true;
    }

    /// Asks that the outermost closing of this nesting scans.
    pub fn accelerate<T: Holds>(&self, local: &mut Local<T>)
        requires { nest_of self.now ≡ nest_in local.old }
        ensures set { own_of local.new ≡ record (own_of local.old) { accelerated = true } }
        ensures same { IsInNest local.old local.new × (born_of local.new ≡ born_of local.old) }
        ensures cells { StepsOnNoCell local.old local.new }
    {
        local.own.accelerated = true;
    }

    /// Defers a job: it is run once, where the participant's guards open from now on, when no guard that is open now is open
    /// any more; after the participant has ended, by whoever makes the first later scan; or by `Domain::close`. If each
    /// slot was taken when it was tried, the job is returned, which is a miss.
    ///
    /// A job is an item that nobody is to own: it is placed and retired at once, so that it is reclaimed as other items are,
    /// and its `Holds::end`, which consumes it, runs it. Condition: it holds just the owners that are in the participant's hand.
    pub fn defer_execute<T: Holds>(
        &self,
        domain: &Domain<T>,
        job: T,
        local: &mut Local<T>,
    ) -> Result<(), T>
        requires home { home_of local.old ≡ place_of domain.now }
        requires mine { nest_of self.now ≡ nest_in local.old }
        requires holds { T.holds job ≡ hand_of local.old }
        ensures refused { IfErr result (λ back. back ≡ job) }
        ensures bare { OnOk result (hand_of local.new ≡ []) }
        ensures hand { OnErr result (hand_of local.new ≡ hand_of local.old) }
        ensures hit { OnOk result (misses_of local.new ≡ misses_of local.old) }
        ensures missed { OnErr result (misses_of local.new ≡ misses_of local.old + 1) }
        ensures own { (flag : Bool) × (own_of local.new ≡ record (own_of local.old) { garbage = flag }) }
        ensures nest { (nest_in local.new ≡ nest_in local.old) × (born_of local.new ≡ born_of local.old) }
        ensures same { (home_of local.new ≡ home_of local.old) × (number_of local.new ≡ number_of local.old) }
        ensures cells { StepsOnNoCell local.old local.new }
    {
        let owner = Shared::new(domain, job, local)?;
        owner.release(domain, local);
        Ok(())
    }

    /// Closes a guard. An outermost closing scans first, if a guard of the nesting was accelerated or this is the 64th
    /// since the last scan with the flag of garbage set. All that was loaded under the
    /// nesting is returned to its home. A scan tries once for the scan lock, and raises the count by one if every open guard
    /// published the present one.
    #[inline(always)]
    pub fn close<T: Holds>(self, domain: &Domain<T>, local: &mut Local<T>)
        requires home { home_of local.old ≡ place_of domain.now }
        requires mine { nest_of self ≡ nest_in local.old }
        requires open { 0 < (own_of local.old).nesting }
        ensures closed { own_of local.new ≡ closed (own_of local.old) }
        ensures inner { 1 < (own_of local.old).nesting → (born_of local.new ≡ born_of local.old) × (nest_in local.new ≡ nest_in local.old) }
        ensures same { IsSame local.old local.new }
        ensures cells { StepsOnNoCell local.old local.new }
    {
        let Guard {
            participant: _,
            life,
        } = self;
        if local.own.nesting == 1 {
            local.finish(domain, life);
        } else {
            local.rise(life);
        }
    }
}
