// What ends a block, a loop or a switch.
ghost use Rattle.std.specs.Prelude.{◌≡◌};
ghost use Rattle.cad_statement_leaves.specs.Code.Results as results;

use crate::flow::Flow;
use cad_outcomes::Stop;

/// What a statement came to, where that ends its block.
#[inline(never)]
pub fn statement_end(ran: Result<Flow, Stop>) -> Option<Result<Flow, Stop>>
    ensures { result ≡ results.statement_end ran }
{
    match ran {
        Ok(flow) => match flow {
            Flow::Next => None,
            Flow::Returned(tree) => Some(Ok(Flow::Returned(tree))),
            Flow::Broken => Some(Ok(Flow::Broken)),
            Flow::Continued => Some(Ok(Flow::Continued)),
        },
        Err(stop) => Some(Err(stop)),
    }
}

/// What a turn came to, where that ends its loop.
#[inline(never)]
pub fn turn_end(ran: Result<Flow, Stop>) -> Option<Result<Flow, Stop>>
    ensures { result ≡ results.turn_end ran }
{
    match ran {
        Ok(flow) => match flow {
            Flow::Next => None,
            Flow::Returned(tree) => Some(Ok(Flow::Returned(tree))),
            Flow::Broken => Some(Ok(Flow::Next)),
            Flow::Continued => None,
        },
        Err(stop) => Some(Err(stop)),
    }
}

/// What a case came to, where it is the one that runs.
#[inline(never)]
pub fn case_end(ran: Result<Option<Flow>, Stop>) -> Option<Result<Option<Flow>, Stop>>
    ensures { result ≡ results.case_end ran }
{
    match ran {
        Ok(found) => match found {
            Some(flow) => Some(Ok(Some(flow))),
            None => None,
        },
        Err(stop) => Some(Err(stop)),
    }
}

/// A case that ran.
#[inline(never)]
pub fn case_ran(ran: Result<Flow, Stop>) -> Result<Option<Flow>, Stop>
    ensures { result ≡ results.case_ran ran }
{
    match ran {
        Ok(flow) => Ok(Some(flow)),
        Err(stop) => Err(stop),
    }
}
