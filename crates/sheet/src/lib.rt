// The sheet of figures that a book opens with (02, W9), and the rule that turns one down; one that it doesn't turn down is `FairSheet` (src/fair.rt).
#![tactic(auto)]

mod fair;

ghost use Rattle.std.specs.Prelude.{◌≡◌};
ghost use Rattle.refusals.specs.Refusals.{number_in};
ghost use Rattle.sheet.specs.Sheet.{percent_out, range_out, fcr_reaction_out, afrr_reaction_out, sheet_number, InRange, default_sheet};

pub use fair::FairSheet;
use power::Kw;
use refusals::Refusal;

// The largest floor and excess, in percent.
const MOST_FLOOR: u32 = 50;

// The largest least range, in kW.
const MOST_LEAST: i32 = 100_000;

// The ends of the reaction times, in seconds.
const LEAST_FCR_REACTION: u32 = 5;

const MOST_FCR_REACTION: u32 = 15;

const MOST_AFRR_REACTION: u32 = 60;

// The seconds back that aFRR's setpoints count.
pub const WINDOW: u32 = 300;

// The six figures as they are handed over, in their ranges or not.
#[derive(Clone, Copy, Debug, PartialEq, Eq)]
pub struct Sheet {
    // FCR's and aFRR's floor: the tolerance that is always there, in percent of held.
    pub fcr_floor: u32,
    pub afrr_floor: u32,
    // The excess over 1 of mFRR's factor, in percent.
    pub excess: u32,
    // The least range that aFRR's gradient goes by.
    pub least_range: Kw,
    // FCR's and aFRR's reaction time, in seconds.
    pub fcr_reaction: u32,
    pub afrr_reaction: u32,
}

impl Sheet {
    #[tactic(auto, unfolding(crate::specs::Sheet::percent_out))]
    fn is_percent_out(self) -> bool
        ensures { result ≡ percent_out self }
    {
        MOST_FLOOR < self.fcr_floor || MOST_FLOOR < self.afrr_floor || MOST_FLOOR < self.excess
    }

    #[tactic(auto, unfolding(crate::specs::Sheet::range_out))]
    fn is_range_out(self) -> bool
        ensures { result ≡ range_out self }
    {
        self.least_range.is_outside(Kw(1), Kw(MOST_LEAST))
    }

    #[tactic(auto, unfolding(crate::specs::Sheet::fcr_reaction_out))]
    fn is_fcr_reaction_out(self) -> bool
        ensures { result ≡ fcr_reaction_out self }
    {
        self.fcr_reaction < LEAST_FCR_REACTION || MOST_FCR_REACTION < self.fcr_reaction
    }

    #[tactic(auto, unfolding(crate::specs::Sheet::afrr_reaction_out))]
    fn is_afrr_reaction_out(self) -> bool
        ensures { result ≡ afrr_reaction_out self }
    {
        self.afrr_reaction < 1 || MOST_AFRR_REACTION < self.afrr_reaction
    }

    // Turned down where a figure is outside its range.
    #[tactic(auto, unfolding(crate::specs::Sheet::sheet_number))]
    pub fn check(self) -> Result<(), Refusal>
        ensures { number_in result ≡ sheet_number self }
    {
        if self.is_percent_out()
            || self.is_range_out()
            || self.is_fcr_reaction_out()
            || self.is_afrr_reaction_out()
        {
            return Err(Refusal::SheetFigure);
        }
        Ok(())
    }
}

// The sheet that the programs use where none is given.
impl Default for Sheet {
    ghost is_default = { λ sh. (sh ≡ default_sheet) × InRange sh };

    #[tactic(auto, using(crate::proofs::Ranges::default_in_range), unfolding(crate::specs::Sheet::default_sheet))]
    fn default() -> Sheet {
        Sheet {
            fcr_floor: 5,
            afrr_floor: 5,
            excess: 20,
            least_range: Kw(1000),
            fcr_reaction: 15,
            afrr_reaction: 30,
        }
    }
}
