// How a command ends.

use hol_model::Fault;
use holp_files::status;
use itoa::Buffer;

/// Tells how a command ended, and answers the exit status: a refused log on standard output, another fault on standard
/// error. Where standard error fails too, only the status tells.
pub(crate) fn tell(rt: &HostRuntime, answer: Result<u64, Fault>) -> u8 {
    let fault = match answer {
        Ok(refused) => return status(refused, None),
        Err(Fault::LogFault { line, cause }) => {
            let mut digits = Buffer::new();
            match println!(rt; "refused at line {}: {cause}", digits.format(line)) {
                Ok(()) => return status(0, Some(Fault::LogFault { line, cause })),
                Err(_) => Fault::WriteFault,
            }
        }
        Err(fault) => fault,
    };
    let _ = eprintln!(rt; "holp: {fault}");
    status(0, Some(fault))
}
