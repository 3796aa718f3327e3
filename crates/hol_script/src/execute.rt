// What a command's text does.
ghost use Rattle.std.specs.Prelude.{Some};
ghost use Rattle.hol_model_sessions.specs.SessionCalls.{Turns};
ghost use Rattle.hol_script_manager.specs.Session.{session_tools, Says};
ghost use Rattle.hol_script_manager.specs.Managers.{state_of, IsManager};

use hol_host::Refiners;
use hol_model::Fault;
use hol_script_commands::command::parse_command;
use hol_script_manager::{Manager, Printed, Refused};
use hol_syntax_grammar::{ReadError, tokens_in};
use std::alloc::Global;

/// Answers a command, which may call a host's functions: what it prints, or a refusal, which changes nothing.
pub fn execute<H: Refiners>(
    manager: &mut Manager,
    alloc: Global,
    host: &H,
    text: &[u8],
) -> Result<Printed, Refused>
    requires { IsManager manager.old }
    ensures turns { Turns (session_tools (H.refiners host.now) (H.conversions host.now)) (state_of manager.old) (Some text.now) (Says result) (state_of manager.new) }
    ensures kept { IsManager manager.new }
{
    let tokens = match tokens_in(alloc, text) {
        Ok(tokens) => tokens,
        Err(ReadError::Memory) => return Err(Refused::plain(Fault::Memory)),
        Err(ReadError::Syntax) => return Err(Refused::plain(Fault::Syntax)),
    };
    match parse_command(alloc, &tokens) {
        Ok(command) => manager.perform(alloc, host, command),
        Err(ReadError::Memory) => Err(Refused::plain(Fault::Memory)),
        Err(ReadError::Syntax) => Err(Refused::plain(Fault::Syntax)),
    }
}
