// What commands come to.
use crate::reply::Reply;
use cad_accounts::Changes;

/// What a command comes to: an answer, and the registers that it changes where it changes the World.
pub enum Outcome {
    Stays(Reply),
    Leads(Reply, Changes),
}
