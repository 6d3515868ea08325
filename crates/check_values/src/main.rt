// The values to hold of FCR and aFRR in document 01, "Values to hold", by stepping their states under document 01's figures.
#![tactic(auto)]

ghost use Rattle.std.specs.Prelude.{◌≡◌};
ghost use Rattle.sheet.specs.Sheet.{first_figures};
ghost use Rattle.fcr.specs.Values.{fall_tolerance};
ghost use Rattle.afrr.specs.Values.{lower_at};

use afrr::{AfrrState, Second};
use fcr::FcrState;
use power::Kw;
use sheet::{FairSheet, Sheet};
use std::io;

// Document 01's figures: the default sheet with its least range of 5,000 kW.
#[tactic(auto, unfolding(sheet::specs::Sheet::default_sheet, sheet::specs::Sheet::first_figures))]
fn first_sheet() -> FairSheet
    ensures { result.figures ≡ first_figures }
{
    FairSheet {
        figures: Sheet {
            least_range: Kw(5000),
            ..Sheet::default()
        },
    }
}

// FCR held 400, one fall 0 to -100 at the given age: the upper tolerance.
fn fall_tolerance(age: u64) -> Kw
    ensures { result.0 ≡ fall_tolerance age }
{
    let sheet = first_sheet();
    let s = Kw(-100);
    let mut state = FcrState::new();
    let mut band = state.step(sheet, s, Kw(400));
    for _ in 0..age {
        band = state.step(sheet, s, Kw(400));
    }
    band.high.minus(s)
}

// aFRR held up 10,000, setpoint 10,000 from second 0: the lower limit at the given second. (This loop and the one above stay two: what each state
// asks of its next step would have to stand in the contract of one over both.)
fn lower_limit(second: u64) -> Kw
    ensures { result.0 ≡ lower_at first_figures second }
{
    let sheet = first_sheet();
    let x = Second {
        setpoint: Kw(10000),
        up: Kw(10000),
        down: Kw(0),
    };
    let mut state = AfrrState::new();
    let mut band = state.step(sheet, x);
    for _ in 0..second {
        band = state.step(sheet, x);
    }
    band.low
}

fn main(rt: HostRuntime) -> io::Result<()> {
    for age in [15, 16, 28] {
        let tolerance = fall_tolerance(age);
        println!(rt; "FCR upper tolerance at age {age}: {tolerance}")?;
    }
    for second in [29, 30, 285, 286] {
        let limit = lower_limit(second);
        println!(rt; "aFRR lower limit at second {second}: {limit}")?;
    }
    Ok(())
}
