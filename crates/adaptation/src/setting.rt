// What AL1M is set to (003, Annex D): which check a unit has, and how many octets of a word are repaired.
ghost use Rattle.std.specs.Prelude.{◌≡◌, ◌+◌, ◌*◌, ◌≤◌};

use crate::al1m::MOST_REPAIRS;
use calls::Refusal;
use checks::Width;

// A check's width and the number of repairs, where both may be asked for.
#[derive(Clone, Copy, Debug, PartialEq, Eq)]
pub struct Setting {
    pub width: Width,
    pub repairs: usize,
    pub ghost few: { repairs ≤ 127 },
}

impl Setting {
    ghost use Rattle.std.specs.Prelude.{MatchResult, true, false};
    ghost use Rattle.checks.specs.Width.{kind_of, kind_at};
    ghost use Rattle.calls.specs.declared.Refusal.TheVariants.{BadSetting};
    ghost use Rattle.adaptation.specs.AL1M.{is_setting};

    // The check of width bits with e repairs: else refusal 1.
    #[tactic(auto, using(crate::proofs::Deciding::decides), unfolding(crate::specs::AL1M::is_setting))]
    pub fn asked(width: u32, e: u32) -> Result<Setting, Refusal>
        ensures { MatchResult result (λ s. (is_setting width e ≡ true) × (kind_of s.width ≡ kind_at width) × (s.repairs ≡ e))
            (λ r. (is_setting width e ≡ false) × (r ≡ BadSetting)) }
    {
        if MOST_REPAIRS < e {
            return Err(Refusal::BadSetting);
        }
        let width = checks::width_of(width).ok_or(Refusal::BadSetting)?;
        Ok(Setting {
            width,
            repairs: e as usize,
        })
    }

    // How many octets stand behind a unit: its check's and the parity's.
    #[tactic(auto, using(crate::proofs::Deciding::decides))]
    pub fn behind(self) -> usize
        ensures { result ≡ (kind_of self.width).octets + 2 * self.repairs }
    {
        checks::octets_of(self.width) + 2 * self.repairs
    }
}
