//! The scripts that are made are scripts: each of their lines is read as an event.
ghost use Rattle.mqb_script.specs.Made.{MadeScriptsAreScripts};

use crate::lines_are_read_back;

/// The script of up to 10,000 orders is within the limits of a script, and its lines are the events
/// of `Orders`, none of which is skipped.
pub fn made_scripts_are_scripts()
    ensures { MadeScriptsAreScripts }
{
    lines_are_read_back();
}
