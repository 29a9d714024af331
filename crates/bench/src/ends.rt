// What an end of a port goes by.
ghost use Rattle.std.specs.Prelude.{◌≡◌};
ghost use Rattle.bench.specs.Handing as handing;

use crate::{End, Port};
use block::Params;

impl End {
    // The length of the SPDUs that it receives.
    pub(crate) fn length(self, params: Params) -> u8
        ensures { result ≡ handing.length_at self params }
    {
        match self {
            End::Master => params.SPDUInLength,
            End::Device => params.SPDUOutLength,
        }
    }

    // Whether safe values that are lent hold: as many zeros as such an SPDU has process octets.
    pub(crate) fn safe_hold(self, params: Params, safe: &[u8]) -> bool
        ensures { result ≡ handing.safe_holds_at self params safe.now }
    {
        spdu::safe_values_hold(params.FSP_ProtMode, self.length(params) as usize, safe)
    }

    pub(crate) fn releases(self, p: Port) -> bool
        ensures { result ≡ handing.releases_at self p }
    {
        match self {
            End::Master => p.live.master.released,
            End::Device => p.live.device.released,
        }
    }
}
