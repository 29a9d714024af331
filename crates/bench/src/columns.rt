// The ports of a bench in three columns, for whoever steps them many times: what a block changes, what a happening changes, the bins. A port that is
// stored whole for each of its turns costs more than the rest of the turn.
ghost use Rattle.std.specs.Prelude.{◌≡◌};
ghost use Rattle.bench.specs.Columns as columns;

use crate::{BIN_COUNT, Bench, Live, PORT_COUNT, Port, Setting};

pub fn settings_of(b: Bench) -> [Setting; PORT_COUNT]
    ensures { result ≡ columns.settings_of b }
{
    b.ports.map(|p| p.setting)
}

pub fn lives_of(b: Bench) -> [Live; PORT_COUNT]
    ensures { result ≡ columns.lives_of b }
{
    b.ports.map(|p| p.live)
}

// The closure has a clause of its own, as `search` finds nothing of an array in an array otherwise.
pub fn all_bins_of(b: Bench) -> [[u32; BIN_COUNT]; PORT_COUNT]
    ensures { result ≡ columns.all_bins_of b }
{
    b.ports.map(
        |p: Port| -> [u32; BIN_COUNT]
            ensures { result ≡ p.bins }
        { p.bins },
    )
}

// The bench whose ports stand so.
pub fn packed(
    settings: [Setting; PORT_COUNT],
    lives: [Live; PORT_COUNT],
    bins: [[u32; BIN_COUNT]; PORT_COUNT],
) -> Bench
    ensures { result ≡ columns.packed settings lives bins }
{
    Bench {
        ports: std::array::from_fn(|i| Port {
            setting: settings[i],
            live: lives[i],
            bins: bins[i],
        }),
    }
}
