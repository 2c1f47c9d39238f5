// The own types of values.
ghost use Rattle.std.specs.Prelude.{◌≡◌, IfOk};
ghost use Rattle.cad_syntax.specs.Types.{pure_type, optional};
ghost use Rattle.cad_values.specs.Types as spec;
ghost use Rattle.cad_values.specs.Values.{pure_value};

use crate::value::Value;
use cad_syntax::{Basic, CadType, Domain, Kind};
use std::alloc::{AllocError, Global};

/// The type of the paths into a domain.
fn path_type(domain: Domain) -> CadType
    ensures { pure_type result ≡ spec.path_type domain }
{
    match domain {
        Domain::Storage => CadType::Basic(Basic::StoragePath),
        Domain::Public => CadType::Basic(Basic::PublicPath),
    }
}

/// The own type of a value; of nil `Never?`.
pub fn type_of_value(alloc: Global, value: &Value) -> Result<CadType, AllocError>
    ensures { IfOk result (λ t. pure_type t ≡ spec.type_of_value (pure_value value.now)) }
{
    Ok(match value {
        Value::Void => CadType::Basic(Basic::Void),
        Value::Nil => CadType::Optional(Box::new(alloc, CadType::Basic(Basic::Never))?),
        Value::Some(content) => CadType::Optional(Box::new(alloc, type_of_value(alloc, content)?)?),
        Value::Bool(_) => CadType::Basic(Basic::Bool),
        Value::Number(n) => CadType::Basic(Basic::Number(n.kind)),
        Value::String(_) => CadType::Basic(Basic::String),
        Value::Character(_) => CadType::Basic(Basic::Character),
        Value::Address(_) => CadType::Basic(Basic::Number(Kind::Address)),
        Value::Path(path) => path_type(path.domain),
        Value::Meta(_) => CadType::Basic(Basic::Meta),
        Value::Capability(cap) => CadType::CapabilityOf(Box::new(alloc, cap.borrow.clone()?)?),
        Value::Array { element, .. } => CadType::Array(Box::new(alloc, element.clone()?)?),
        Value::Dictionary { key, value, .. } => {
            let keys = Box::new(alloc, key.clone()?)?;
            CadType::Dictionary(keys, Box::new(alloc, value.clone()?)?)
        }
        Value::Composite { id, .. } => CadType::Declared(id.clone()?),
        Value::Reference(reference) => {
            let target = Box::new(alloc, reference.target.clone()?)?;
            CadType::Reference(reference.authorization.clone()?, target)
        }
    })
}
