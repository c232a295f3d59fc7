// What was counted of a channel's units.
use crate::far::Verdict;
use crate::plan::{CHANNELS, PLANS, Plan};
use adaptation::Badge;

// How many units came; how many were handed up under each badge; how many octets were repaired; and how many units with a green badge differ
// from what was sent.
#[derive(Clone, Copy, Debug, Default, PartialEq, Eq)]
pub(crate) struct Tally {
    pub units: usize,
    pub clean: usize,
    pub corrected: usize,
    pub out_of_reach: usize,
    pub check_failed: usize,
    pub unchecked: usize,
    pub repaired: usize,
    pub wrongly_green: usize,
}

impl Tally {
    // Counts a unit, and what was said of it where it was handed up.
    pub(crate) fn count(&mut self, verdict: Option<Verdict>) {
        self.units = self.units.saturating_add(1);
        let Some(v) = verdict else {
            return;
        };
        let under_badge = match v.badge {
            Badge::Clean => &mut self.clean,
            Badge::Corrected => &mut self.corrected,
            Badge::OutOfReach => &mut self.out_of_reach,
            Badge::CheckFailed => &mut self.check_failed,
            Badge::Unchecked => &mut self.unchecked,
        };
        *under_badge = under_badge.saturating_add(1);
        self.repaired = self.repaired.saturating_add(v.repaired);
        if v.is_wrongly_green() {
            self.wrongly_green = self.wrongly_green.saturating_add(1);
        }
    }
}

// A channel's plan, and what was counted of its units.
#[derive(Clone, Copy, Debug, PartialEq, Eq)]
pub(crate) struct Account {
    pub plan: Plan,
    pub tally: Tally,
}

// The channels' accounts, nothing being counted yet.
pub(crate) fn open_accounts() -> [Account; CHANNELS] {
    PLANS.map(|plan| Account {
        plan,
        tally: Tally::default(),
    })
}
