//! Automatic scaling in the bodies of `add-pool`, `enable-autoscale` and `evaluate-autoscale`.
ghost use Rattle.std.specs.Prelude.{◌≡◌, ◌||◌, true, is_none, IfOk};
ghost use Rattle.serde_json.specs.View.{view};
ghost use Rattle.bt_base.specs.Fails.{Gives};
ghost use Rattle.bt_rows.specs.Ranges.{is_formula_text, is_interval, is_scale_spec_in_range, is_scaling_in_range, passes_if_some};
ghost use Rattle.wire_bodies.specs.Scalings.{enable_in, enable_of, evaluate_in, evaluate_of, formula_if, interval_if, interval_member, scales, scaling_if, used_formula};

use bt_base::{Fail, Text};
use bt_rows::event::{ScaleSpec, Scaling};
use bt_rows::limits::{DEFAULT_INTERVAL, FORMULA_LIMIT, GREATEST_INTERVAL, LEAST_INTERVAL};
use bt_rows::member::Member;
use bt_rows::refusal::Refusal;
use serde_json::Value;
use std::alloc::Global;
use wire_members::{
    flag_member, invalid_property, is_true, limited_duration_if, limited_duration_member,
    read_object, text_member,
};

/// Whether it has at most 8,192 bytes, if there is a formula.
fn is_formula_if_some(formula: &Option<Text>) -> bool
    ensures { result ≡ passes_if_some is_formula_text formula.now }
{
    match formula {
        None => true,
        Some(formula) => formula.as_str().len() <= FORMULA_LIMIT,
    }
}

/// The formula; None if it is absent (Azure: autoScaleFormula).
#[tactic(auto, unfolding(crate::specs::Scalings::formula_if))]
fn formula_if(alloc: Global, body: &Value) -> Result<Option<Text>, Fail<Refusal>>
    ensures value { Gives result (formula_if (view body.now)) }
    ensures kept { IfOk result (λ formula. passes_if_some is_formula_text formula ≡ true) }
{
    let formula = text_member(alloc, Some(body), Member::AutoScaleFormula)?;
    if is_formula_if_some(&formula) {
        Ok(formula)
    } else {
        Err(invalid_property(Member::AutoScaleFormula))
    }
}

/// Whether the pool is to scale automatically (Azure: enableAutoScale). It does not allocate.
pub fn scales(body: &Value) -> bool
    ensures { result ≡ scales (view body.now) }
{
    is_true(Some(body), Member::EnableAutoScale)
}

/// The formula of a pool that scales, which is required; None for another one, whose formula is not used.
fn used_formula(scales: bool, formula: Option<Text>) -> Result<Option<Text>, Fail<Refusal>>
    requires { passes_if_some is_formula_text formula ≡ true }
    ensures value { Gives result (used_formula scales formula) }
    ensures kept { IfOk result (λ formula. passes_if_some is_formula_text formula ≡ true) }
    ensures used { IfOk result (λ formula. (is_none formula || scales) ≡ true) }
{
    if !scales {
        return Ok(None);
    }
    match formula {
        None => Err(invalid_property(Member::AutoScaleFormula)),
        Some(formula) => Ok(Some(formula)),
    }
}

/// The time from one evaluation to the next, in milliseconds; 15 minutes if it is absent (Azure: autoScaleEvaluationInterval).
fn interval_member(body: &Value) -> Result<u64, Fail<Refusal>>
    ensures value { Gives result (interval_member (view body.now)) }
    ensures kept { IfOk result (λ interval. is_interval interval ≡ true) }
{
    limited_duration_member(
        Some(body),
        Member::AutoScaleEvaluationInterval,
        LEAST_INTERVAL,
        GREATEST_INTERVAL,
        DEFAULT_INTERVAL,
    )
}

/// How a new pool scales, None if it does not: `enableAutoScale` (false), `autoScaleFormula`, at most 8,192 bytes and required if the pool
/// scales, and `autoScaleEvaluationInterval`, a duration from 5 minutes to 168 hours (15 minutes). The other two are read also if the pool
/// does not scale. A member that is of a wrong kind or out of range is `InvalidPropertyValue` with its name. It fails with `Memory` when out
/// of memory.
#[tactic(auto, unfolding(crate::specs::Scalings::scaling_if))]
pub fn scaling_if(alloc: Global, body: &Value) -> Result<Option<Scaling>, Fail<Refusal>>
    ensures value { Gives result (scaling_if (view body.now)) }
    ensures kept { IfOk result (λ scaling. passes_if_some is_scaling_in_range scaling ≡ true) }
    ensures used { IfOk result (λ scaling. (is_none scaling || scales (view body.now)) ≡ true) }
{
    flag_member(Some(body), Member::EnableAutoScale, false)?;
    let stated = formula_if(alloc, body)?;
    let used = used_formula(scales(body), stated)?;
    let interval = interval_member(body)?;
    Ok(used.map(|formula| Scaling { formula, interval }))
}

/// The time from one evaluation to the next, in milliseconds; None if it is absent (Azure: autoScaleEvaluationInterval).
fn interval_if(body: &Value) -> Result<Option<u64>, Fail<Refusal>>
    ensures value { Gives result (interval_if (view body.now)) }
    ensures kept { IfOk result (λ interval. passes_if_some is_interval interval ≡ true) }
{
    limited_duration_if(
        Some(body),
        Member::AutoScaleEvaluationInterval,
        LEAST_INTERVAL,
        GREATEST_INTERVAL,
    )
}

/// The formula and the interval that the members of the body are.
#[tactic(auto, unfolding(crate::specs::Scalings::enable_in))]
fn enable(alloc: Global, body: &Value) -> Result<ScaleSpec, Fail<Refusal>>
    ensures value { Gives result (enable_in (view body.now)) }
    ensures kept { IfOk result (λ spec. is_scale_spec_in_range spec ≡ true) }
{
    let formula = formula_if(alloc, body)?;
    let interval = interval_if(body)?;
    Ok(ScaleSpec { formula, interval })
}

/// The body of `enable-autoscale` (Azure: Enable Pool Auto Scale): `autoScaleFormula`, at most 8,192 bytes, and
/// `autoScaleEvaluationInterval`, a duration from 5 minutes to 168 hours. None of them is required, and an absent one has no default.
///
/// Bytes that are not a JSON object are `UnreadableBody`. A member that is of a wrong kind or out of range is `InvalidPropertyValue` with
/// its name. It fails with `Memory` when out of memory.
#[tactic(auto, unfolding(crate::specs::Scalings::enable_of))]
pub fn read_enable_autoscale(alloc: Global, bytes: &[u8]) -> Result<ScaleSpec, Fail<Refusal>>
    ensures value { Gives result (enable_of bytes.now) }
    ensures kept { IfOk result (λ spec. is_scale_spec_in_range spec ≡ true) }
{
    let body = read_object(alloc, bytes)?;
    enable(alloc, &body)
}

/// The formula that the members of the body are.
#[tactic(auto, unfolding(crate::specs::Scalings::evaluate_in))]
fn evaluate(alloc: Global, body: &Value) -> Result<Text, Fail<Refusal>>
    ensures value { Gives result (evaluate_in (view body.now)) }
    ensures kept { IfOk result (λ formula. is_formula_text formula ≡ true) }
{
    let formula = formula_if(alloc, body)?;
    formula.ok_or(invalid_property(Member::AutoScaleFormula))
}

/// The body of `evaluate-autoscale` (Azure: Evaluate Pool Auto Scale): `autoScaleFormula`, at most 8,192 bytes, which is required.
///
/// Bytes that are not a JSON object are `UnreadableBody`; an absent formula and another value are `InvalidPropertyValue(AutoScaleFormula)`.
/// It fails with `Memory` when out of memory.
#[tactic(auto, unfolding(crate::specs::Scalings::evaluate_of))]
pub fn read_evaluate_autoscale(alloc: Global, bytes: &[u8]) -> Result<Text, Fail<Refusal>>
    ensures value { Gives result (evaluate_of bytes.now) }
    ensures kept { IfOk result (λ formula. is_formula_text formula ≡ true) }
{
    let body = read_object(alloc, bytes)?;
    evaluate(alloc, &body)
}
