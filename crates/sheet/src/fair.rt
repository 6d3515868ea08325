// A sheet whose figures are all in their ranges (02, W9), and how many grains make a kW under it.
ghost use Rattle.std.specs.Prelude.{◌≡◌, IfOk};
ghost use Rattle.refusals.specs.Refusals.{number_in};
ghost use Rattle.sheet.specs.Sheet.{sheet_number, InRange, per_kw, factor, default_sheet};

use crate::{Sheet, WINDOW};
use power::PerKw;
use refusals::Refusal;

// What bands and seconds go by: 30 turns every other sheet down before a book opens.
#[derive(Clone, Copy, Debug, PartialEq, Eq)]
pub struct FairSheet {
    pub figures: Sheet,
    pub ghost in_range: { InRange figures },
}

impl FairSheet {
    // The grains of a kW.
    #[tactic(auto, using(crate::proofs::Sizes::divides), unfolding(crate::specs::Sheet::per_kw))]
    pub fn per_kw(self) -> PerKw
        ensures { result.grains ≡ per_kw self.figures }
    {
        let figures = self.figures;
        PerKw {
            grains: 100 * (2 * figures.fcr_reaction * (WINDOW - figures.afrr_reaction)),
        }
    }

    // mFRR's factor, in percent.
    pub fn factor(self) -> u32
        ensures { result ≡ factor self.figures }
    {
        100 + self.figures.excess
    }
}

impl TryFrom<Sheet> for FairSheet {
    type Error = Refusal;

    ghost try_from_gives = { λ figures result. (number_in result ≡ sheet_number figures) × IfOk result (λ sheet. sheet.figures ≡ figures) };

    fn try_from(figures: Sheet) -> Result<FairSheet, Refusal> {
        figures.check()?;
        Ok(FairSheet { figures })
    }
}

// The sheet that the programs use where none is given.
impl Default for FairSheet {
    ghost is_default = { λ sheet. sheet.figures ≡ default_sheet };

    fn default() -> FairSheet {
        FairSheet {
            figures: Sheet::default(),
        }
    }
}
