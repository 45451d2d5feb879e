// The homes that a bank may be filled with.
ghost use Rattle.std.specs.Prelude.{◌≡◌};
ghost use Rattle.arrays.specs.Filling.{try_homes, greatest};

use faults::BankFault;

const MOST_HOME: u8 = 3;

// Whether every home is a disk that there may be.
pub(crate) fn try_homes(homes: &[u8; 64]) -> Result<(), BankFault>
    ensures { result ≡ try_homes 0 homes.now }
{
    match homes.iter().position(|home| *home > MOST_HOME) {
        Some(block) => Err(BankFault::Home { block: block as u8 }),
        None => Ok(()),
    }
}

// The greatest of the homes.
pub(crate) fn greatest(homes: &[u8; 64]) -> u8
    ensures { result ≡ greatest homes.now }
{
    homes.iter().copied().max().unwrap_or(0)
}
