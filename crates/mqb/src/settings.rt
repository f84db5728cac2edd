ghost use Rattle.std.specs.Prelude.{◌≤◌, IfOk};

use mqb_net::{MAX_WAIT, PORT};
use std::env;
use std::env::VarError;
use std::rt::Env;

/// How many seconds a store in use is waited for.
const HOLD: u32 = 10;

/// What the environment sets.
#[derive(Clone, Copy, Debug)]
pub(crate) struct Settings {
    /// MQB_PORT, the port of managers.
    pub(crate) port: u16,
    /// MQB_WAIT, how many milliseconds a silent peer is waited for.
    pub(crate) wait: u64,
    /// MQB_HOLD, how many seconds a store in use is waited for.
    pub(crate) hold: u32,
}

/// Why settings are not read.
#[derive(Clone, Copy, Debug)]
pub(crate) enum SettingsFault {
    /// What has this name is no number within these bounds.
    Value {
        name: &'static str,
        least: u32,
        greatest: u32,
    },
    Memory,
}

/// The number that the environment has under a name, or another where it has nothing.
fn number_of(
    rt: &(impl Env + AllocGlobal),
    name: &'static str,
    least: u32,
    greatest: u32,
    other: u32,
) -> Result<u32, SettingsFault>
    requires least { least ≤ other }
    requires greatest { other ≤ greatest }
    ensures least { IfOk result (λ n. least ≤ n) }
    ensures greatest { IfOk result (λ n. n ≤ greatest) }
{
    let value = match env::var(rt, name) {
        Ok(value) => value.as_str().parse::<u32>().ok(),
        Err(VarError::OutOfMemory) => return Err(SettingsFault::Memory),
        Err(VarError::NotPresent) => Some(other),
        Err(VarError::NotUnicode) => None,
    };
    match value {
        Some(value) if least <= value && value <= greatest => Ok(value),
        _ => Err(SettingsFault::Value {
            name,
            least,
            greatest,
        }),
    }
}

impl Settings {
    pub(crate) fn of_environment(rt: &(impl Env + AllocGlobal)) -> Result<Settings, SettingsFault> {
        let port = number_of(rt, "MQB_PORT", 1, u32::from(u16::MAX), u32::from(PORT))?;
        let wait = number_of(rt, "MQB_WAIT", 1, u32::MAX, MAX_WAIT as u32)?;
        let hold = number_of(rt, "MQB_HOLD", 0, u32::MAX, HOLD)?;
        Ok(Settings {
            port: port as u16,
            wait: u64::from(wait),
            hold,
        })
    }
}
