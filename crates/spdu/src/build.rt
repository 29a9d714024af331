// Building an SPDU in a buffer that is lent.
ghost use Rattle.std.specs.Prelude.{◌≡◌, ◌++◌, length};
ghost use Rattle.ranges.specs.Fields.{safety_octets};
ghost use Rattle.spdu.specs.Signature.{by_engine, replaced};
ghost use Rattle.spdu.specs.Built as built;

use crate::control::{Control, Status};
use crate::read::replace;
use answer::{Answer, Refusal, refuse_if};
use block::Params;
use signature::Signing;

// The signature of process octets, port number and control octet, a zero replaced.
// Each width has a register of its own type (crate signature), so the modes are two branches.
fn seal(signing: &Signing, mode: u8, process: &[u8], port: u8, control: u8) -> u32
    ensures { result ≡ replaced (by_engine signing.now.engine signing.now.short.now signing.now.long.now mode (built.contents_with process.now port control)) }
{
    if mode == 1 {
        let register = signing.sign::<u16>(1, process);
        let register = signing.step::<u16>(register, port);
        replace(signing.step::<u16>(register, control) as u32)
    } else {
        let register = signing.sign::<u32>(1, process);
        let register = signing.step::<u32>(register, port);
        replace(signing.step::<u32>(register, control))
    }
}

// Port number, control octet and signature, behind the process octets that they stand for. Two branches, as the modes' trailers have two lengths.
fn write_trailer(
    signing: &Signing,
    mode: u8,
    process: &[u8],
    port: u8,
    control: u8,
    trailer: &mut [u8],
)
    requires { length trailer.old ≡ safety_octets mode }
    ensures { process.now ++ trailer.new ≡ built.spdu_with (by_engine signing.now.engine signing.now.short.now signing.now.long.now) mode process.now port control }
{
    let [a, b, c, d] = seal(signing, mode, process, port, control).to_be_bytes();
    if mode == 1 {
        trailer.copy_from_slice(&[port, control, c, d]);
    } else {
        trailer.copy_from_slice(&[port, control, a, b, c, d]);
    }
}

pub(crate) fn buffers_hold(mode: u8, spdu: u8, process: usize, out: usize) -> bool
    ensures { result ≡ built.buffers_hold mode spdu process out }
{
    let n = spdu as usize;
    let safety = ranges::safety_octets(mode) as usize;
    (n.checked_sub(safety) == Some(process)) & (out == n)
}

// The process octets that are sent: as lent, or zeros of the same number.
fn write_process(setSD: bool, process: &[u8], out: &mut [u8])
    requires { length out.old ≡ length process.now }
    ensures { out.new ≡ built.process_sent setSD process.now }
{
    if setSD {
        out.fill(0);
    } else {
        out.copy_from_slice(process);
    }
}

// The FS-Master's SPDU, into exactly SPDUOutLength octets.
pub fn build_request_by(
    signing: &Signing,
    p: Params,
    control: Control,
    process: &[u8],
    out: &mut [u8],
) -> Answer
    ensures value { result ≡ built.built_as (built.buffers_hold p.FSP_ProtMode p.SPDUOutLength (length process.now) (length out.old)) }
    ensures out_after { out.new ≡ built.request_built (by_engine signing.now.engine signing.now.short.now signing.now.long.now) p control.MCount control.setSD control.ChFAckReq process.now out.old }
{
    let holds = buffers_hold(p.FSP_ProtMode, p.SPDUOutLength, process.len(), out.len());
    refuse_if(!holds, Refusal::Buffer)?;
    let (sent, trailer) = out.split_at_mut(process.len());
    write_process(control.setSD, process, sent);
    write_trailer(
        signing,
        p.FSP_ProtMode,
        sent,
        p.FSP_Port,
        control.octet(),
        trailer,
    );
    Ok(())
}

// The FS-Device's SPDU, into exactly SPDUInLength octets; zeros until it has responded.
// `responded` stands beside the status and not around it as an Option: the FS-Device's state has both from the start (crate fs_device), and so C
// lends them.
pub fn build_response_by(
    signing: &Signing,
    p: Params,
    responded: bool,
    status: Status,
    process: &[u8],
    out: &mut [u8],
) -> Answer
    ensures value { result ≡ built.built_as (built.buffers_hold p.FSP_ProtMode p.SPDUInLength (length process.now) (length out.old)) }
    ensures out_after { out.new ≡ built.response_built (by_engine signing.now.engine signing.now.short.now signing.now.long.now) p responded status.DCount_i status.SDset status.DCommErr status.DTimeout process.now out.old }
{
    let holds = buffers_hold(p.FSP_ProtMode, p.SPDUInLength, process.len(), out.len());
    refuse_if(!holds, Refusal::Buffer)?;
    if responded {
        let (sent, trailer) = out.split_at_mut(process.len());
        sent.copy_from_slice(process);
        write_trailer(
            signing,
            p.FSP_ProtMode,
            process,
            p.FSP_Port,
            status.octet(),
            trailer,
        );
    } else {
        out.fill(0);
    }
    Ok(())
}
