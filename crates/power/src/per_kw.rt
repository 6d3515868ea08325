// How many grains make a kW, the unit that limits are carried in.
ghost use Rattle.power.specs.Units.{Divides};

// The sheet's number, or AbLa's five; so few that every power's grains fit 64 bits.
#[derive(Clone, Copy, Debug, PartialEq, Eq, PartialOrd, Ord)]
pub struct PerKw {
    pub grains: u32,
    pub ghost divides: { Divides grains },
}
