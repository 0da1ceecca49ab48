//! Parameters by name.
ghost use Rattle.std.specs.Prelude.{◌≡◌, IfErr, IfOk, IsTrue, OnErr, OnOk, ◌&&◌, int_le};
ghost use Rattle.model_data.specs.Params.{IsInRange};
ghost use Rattle.model_core.specs.Parameter.{get_of, greatest, least, parameter_of, set_of, value_of, with_value};

use base_names::Refusal;
use model_data::{MAX_DETAIL, MAX_ITERATIONS, MAX_NODES, MAX_PRIORITY, MAX_WORK, Params};

/// A parameter, by the name that it is set by.
#[derive(Clone, Copy, Debug, PartialEq, Eq)]
enum Parameter {
    IterationLimit,
    NodeLimit,
    WorkLimit,
    CSPriority,
    JSONSolDetail,
}

/// Sets a parameter. PARAM: no parameter has the name; RANGE: the value isn't in its range.
pub fn set(params: &mut Params, name: &[u8], value: i128) -> Result<(), Refusal>
    requires { IsInRange params.old }
    ensures ok { OnOk result (set_of name.now value params.old ≡ Ok params.new) }
    ensures refused { IfErr result (λ refusal. set_of name.now value params.old ≡ Err refusal) }
    ensures unchanged { OnErr result (params.new ≡ params.old) }
    ensures in_range { IsInRange params.new }
{
    let Some(parameter) = parameter_of(name) else {
        return Err(Refusal::PARAM);
    };
    if !is_in_range(parameter, value) {
        return Err(Refusal::RANGE);
    }
    put(params, parameter, value);
    Ok(())
}

/// The value of a parameter. PARAM: no parameter has the name.
pub fn get(params: &Params, name: &[u8]) -> Result<i128, Refusal>
    ensures { result ≡ get_of name.now params.now }
{
    match parameter_of(name) {
        Some(parameter) => Ok(value_of(params, parameter)),
        None => Err(Refusal::PARAM),
    }
}

fn parameter_of(name: &[u8]) -> Option<Parameter>
    ensures { result ≡ parameter_of name.now }
{
    if name == b"IterationLimit".as_slice() {
        Some(Parameter::IterationLimit)
    } else if name == b"NodeLimit".as_slice() {
        Some(Parameter::NodeLimit)
    } else if name == b"WorkLimit".as_slice() {
        Some(Parameter::WorkLimit)
    } else if name == b"CSPriority".as_slice() {
        Some(Parameter::CSPriority)
    } else if name == b"JSONSolDetail".as_slice() {
        Some(Parameter::JSONSolDetail)
    } else {
        None
    }
}

fn is_in_range(parameter: Parameter, value: i128) -> bool
    ensures { result ≡ (int_le (least parameter) value && int_le value (greatest parameter)) }
{
    match parameter {
        Parameter::IterationLimit => 0 <= value && value <= MAX_ITERATIONS as i128,
        Parameter::NodeLimit => 0 <= value && value <= MAX_NODES as i128,
        Parameter::WorkLimit => 0 <= value && value <= MAX_WORK as i128,
        Parameter::CSPriority => -MAX_PRIORITY as i128 <= value && value <= MAX_PRIORITY as i128,
        Parameter::JSONSolDetail => 0 <= value && value <= MAX_DETAIL as i128,
    }
}

fn value_of(params: &Params, parameter: Parameter) -> i128
    ensures { result ≡ value_of parameter params.now }
{
    match parameter {
        Parameter::IterationLimit => params.iterations as i128,
        Parameter::NodeLimit => params.nodes as i128,
        Parameter::WorkLimit => params.work as i128,
        Parameter::CSPriority => params.priority as i128,
        Parameter::JSONSolDetail => params.detail as i128,
    }
}

/// Sets a parameter to a value of its range.
fn put(params: &mut Params, parameter: Parameter, value: i128)
    requires in_range { IsInRange params.old }
    requires value { IsTrue (int_le (least parameter) value && int_le value (greatest parameter)) }
    ensures value { params.new ≡ with_value parameter value params.old }
    ensures in_range { IsInRange params.new }
{
    match parameter {
        Parameter::IterationLimit => params.iterations = value as u64,
        Parameter::NodeLimit => params.nodes = value as u64,
        Parameter::WorkLimit => params.work = value as u64,
        Parameter::CSPriority => params.priority = value as i8,
        Parameter::JSONSolDetail => params.detail = value as u8,
    }
}
