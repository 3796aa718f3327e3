// The exit status of a run.
ghost use Rattle.std.specs.Prelude.{◌≡◌};
ghost use Rattle.holp_files.specs.Status.{status_of};

use hol_model::Fault;

/// 0 where all was accepted, 1 where a command was refused, 2 for a device, memory or length, 3 for a refused log.
pub fn status(refused: u64, fault: Option<Fault>) -> u8
    ensures { result ≡ status_of refused fault }
{
    match fault {
        Some(Fault::LogFault { .. }) => 3,
        Some(_) => 2,
        None => { if refused == 0 { 0 } else { 1 } }
    }
}

#[cfg(test)]
mod tests {
    use super::*;
    use hol_model::Cause;
    use std::test::Fail;

    #[test]
    fn tells_how_a_run_ended(rt: HostRuntime) -> Result<(), Fail> {
        assert_eq!(rt; status(0, None), 0);
        assert_eq!(rt; status(1, None), 1);
        assert_eq!(rt; status(7, None), 1);
        assert_eq!(rt; status(0, Some(Fault::ReadFault)), 2);
        assert_eq!(rt; status(0, Some(Fault::WriteFault)), 2);
        assert_eq!(rt; status(0, Some(Fault::TooLong)), 2);
        assert_eq!(rt; status(3, Some(Fault::Memory)), 2);
        let fault = Fault::LogFault {
            line: 1,
            cause: Cause::Header,
        };
        assert_eq!(rt; status(0, Some(fault)), 3);
        Ok(())
    }
}
