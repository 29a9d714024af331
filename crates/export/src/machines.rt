// The two SCL machines (crates fs_master and fs_device) and their clock (crate scl). Rows, checks and marks are numbers here.
ghost use Rattle.std.specs.Prelude.{◌≡◌};
ghost use Rattle.scl.specs.Time.{elapsed_of};
ghost use Rattle.scl.specs.declared.Happening.TheVariants as happening;
ghost use Rattle.fs_device.specs.Table40.{first_device};
ghost use Rattle.fs_device.specs.Calls as devices;
ghost use Rattle.fs_master.specs.Table38.{first_master};
ghost use Rattle.fs_master.specs.Calls as masters;
ghost use Rattle.export.specs.Outcomes.{device_told, master_told};

use fs_device::Device;
use fs_master::Master;
use scl::{Happening, Request, Response};

#[repr(C)]
#[derive(Clone, Copy)]
pub struct DeviceOutcome {
    pub device: Device,
    pub watchdog: u8,
    pub arrival: u8,
    pub check: u8,
    pub old: bool,
    pub passed: bool,
    pub mark: u8,
    pub unused: [u8; 2],
}

#[repr(C)]
#[derive(Clone, Copy)]
pub struct MasterOutcome {
    pub master: Master,
    pub watchdog: u8,
    pub arrival: u8,
    pub check: u8,
    pub old: bool,
    pub passed: bool,
    pub mark: u8,
    pub unused: [u8; 2],
}

impl From<fs_device::Outcome> for DeviceOutcome {
    ghost from_gives = { λ o r. r ≡ device_told o };

    fn from(outcome: fs_device::Outcome) -> DeviceOutcome {
        DeviceOutcome {
            device: outcome.device,
            watchdog: fs_device::row_number(outcome.watchdog),
            arrival: fs_device::row_number(outcome.arrival),
            check: scl::check_number(outcome.check),
            old: outcome.old,
            passed: outcome.passed,
            mark: scl::mark_number(outcome.mark),
            unused: [0; 2],
        }
    }
}

impl From<fs_master::Outcome> for MasterOutcome {
    ghost from_gives = { λ o r. r ≡ master_told o };

    fn from(outcome: fs_master::Outcome) -> MasterOutcome {
        MasterOutcome {
            master: outcome.master,
            watchdog: fs_master::row_number(outcome.watchdog),
            arrival: fs_master::row_number(outcome.arrival),
            check: scl::check_number(outcome.check),
            old: outcome.old,
            passed: outcome.passed,
            mark: scl::mark_number(outcome.mark),
            unused: [0; 2],
        }
    }
}

#[unsafe(no_mangle)]
pub extern "C" fn whakelouna_elapsed(now: u32, since: u32) -> u32
    ensures { result ≡ elapsed_of now since }
{
    scl::elapsed(now, since)
}

#[unsafe(no_mangle)]
pub extern "C" fn whakelouna_device_first(at: u32) -> Device
    ensures { result ≡ first_device at }
{
    fs_device::first(at)
}

#[unsafe(no_mangle)]
pub extern "C" fn whakelouna_device_request(
    device: Device,
    w: u16,
    at: u32,
    request: Request,
) -> DeviceOutcome
    ensures { result ≡ device_told (devices.step_of device w (happening.Request at request)) }
{
    DeviceOutcome::from(fs_device::step(device, w, Happening::Request(at, request)))
}

#[unsafe(no_mangle)]
pub extern "C" fn whakelouna_device_clock(device: Device, w: u16, at: u32) -> DeviceOutcome
    ensures { result ≡ device_told (devices.step_of device w (happening.Clock at)) }
{
    DeviceOutcome::from(fs_device::step(device, w, Happening::Clock(at)))
}

#[unsafe(no_mangle)]
pub extern "C" fn whakelouna_master_first(at: u32) -> Master
    ensures { result ≡ first_master at }
{
    fs_master::first(at)
}

#[unsafe(no_mangle)]
pub extern "C" fn whakelouna_master_response(
    master: Master,
    w: u16,
    at: u32,
    response: Response,
) -> MasterOutcome
    ensures { result ≡ master_told (masters.step_of master w (happening.Response at response)) }
{
    MasterOutcome::from(fs_master::step(master, w, Happening::Response(at, response)))
}

#[unsafe(no_mangle)]
pub extern "C" fn whakelouna_master_clock(master: Master, w: u16, at: u32) -> MasterOutcome
    ensures { result ≡ master_told (masters.step_of master w (happening.Clock at)) }
{
    MasterOutcome::from(fs_master::step(master, w, Happening::Clock(at)))
}

#[unsafe(no_mangle)]
pub extern "C" fn whakelouna_master_operator(
    master: Master,
    w: u16,
    at: u32,
    setSD_C: bool,
    ChFAck_C: bool,
) -> MasterOutcome
    ensures { result ≡ master_told (masters.step_of master w (happening.Operator at setSD_C ChFAck_C)) }
{
    MasterOutcome::from(fs_master::step(master, w, Happening::Operator(at, setSD_C, ChFAck_C)))
}
