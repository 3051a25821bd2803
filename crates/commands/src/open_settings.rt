ghost use Rattle.model.specs.Tlv.{open_settings};
ghost use Rattle.commands.specs.Decisions.{DecidesAlways, decided};

use crate::decision::Decision;
use params::parse::Params;
use replies::status::Status;

// Open settings, which this token does not have.
pub fn open_settings(params: Params) -> Result<Decision, Status>
    ensures { DecidesAlways open_settings params (decided result) }
{
    if params.broken {
        return Err(Status::ParamsInvalid);
    }
    Err(Status::CmdNotSupported)
}
