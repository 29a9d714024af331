// What a record asks of the port that it addresses.
ghost use Rattle.std.specs.Prelude.{◌≡◌};
ghost use Rattle.record.specs.Format.{number_of};
ghost use Rattle.bench.specs.Methods.{method_of};
ghost use Rattle.session.specs.Run as runs;

use answer::Refusal;
use bench::{Act, End, Setting};
use record::{Kind, Record};
use signature::Signing;

// Of its octets, which stand behind its head. A record lends zeros as safe values, so they hold. `outside` stands beside the setting: an Option of the
// setting, made from the flag, was tried and takes 3 instructions a record more.
pub(crate) fn act_of(
    signing: &Signing,
    outside: bool,
    setting: Setting,
    found: Record,
    octets: &[u8],
) -> Result<Act, Refusal>
    ensures { result ≡ runs.act_by (method_of signing.now.engine signing.now.short.now signing.now.long.now) outside setting (runs.entry (number_of found.kind) found.port found.clock octets.now) }
{
    // By returns: one match whose arms each make a Result costs 19 instructions a record more. So a block has left before the match below, and its
    // kind stands with the last arm there, for a match names every kind.
    if let Kind::Block = found.kind {
        return bench::parameters_act(signing.engine, signing.short, found.port, octets);
    }
    if outside {
        return Err(Refusal::NoPort);
    }
    let setting = Some(setting);
    match found.kind {
        Kind::Response => {
            bench::spdu_act(signing, End::Master, setting, found.clock, octets, true)
        }
        Kind::Clock => bench::clock_act(setting, found.clock, true),
        Kind::Block | Kind::Operator => {
            let bits = octets.first().copied().unwrap_or(0);
            bench::operator_act(setting, found.clock, bits % 2 == 1, bits / 2 % 2 == 1, true)
        }
    }
}
