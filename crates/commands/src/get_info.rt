ghost use Rattle.model.specs.Tlv.{get_info};
ghost use Rattle.commands.specs.Decisions.{DecidesAlways, decided};

use crate::decision::{Decision, plain};
use params::parse::Params;
use replies::reply::Shape;
use replies::status::Status;
use stored_table::left::Change;

// GetInfo: a status, or the information.
pub fn get_info(params: Params) -> Result<Decision, Status>
    ensures { DecidesAlways get_info params (decided result) }
{
    if params.broken {
        return Err(Status::ParamsInvalid);
    }
    Ok(plain(Shape::Info, Change::Keep))
}
