//! Of which kind the value of an expression is, and the instruction that makes of it what is wanted.
ghost use Rattle.std.specs.Prelude.{◌≡◌};
ghost use Rattle.template_compile.specs.Inner.Listed.{listed};
ghost use Rattle.template_compile.specs.Kinds.{expression_kind, conversion};
ghost use Rattle.template_tags.specs.Expression.{expression_view};
ghost use Rattle.template_tree.specs.Meaning.{second_parameter};

use helper_set::helper::Helper;
use helper_set::kind::Kind;
use helper_set::signature::{Parameter, signature};
use template_code::instr::Instr;
use template_tags::expression::Expression;

/// The kind of the expression's value.
#[tactic(auto, using(template_tree::proofs::Views::view_call, template_tree::proofs::Views::view_call_two))]
pub fn expression_kind(expression: &Expression) -> Kind
    ensures { result ≡ expression_kind (expression_view expression.now) }
{
    match expression {
        Expression::Datum(_) => Kind::Data,
        Expression::Index | Expression::Number(_) => Kind::Number,
        Expression::Key | Expression::Text(_) => Kind::Text,
        Expression::First | Expression::Last | Expression::Truth(_) => Kind::Truth,
        Expression::Call(helper, _) | Expression::CallTwo(helper, _, _) => signature(*helper).gives,
    }
}

/// What a helper of two arguments wants its second one as.
pub fn second_parameter(helper: Helper) -> Parameter
    ensures { result ≡ second_parameter helper }
{
    signature(helper).second.unwrap_or(Parameter::Any)
}

/// The instruction, if one is needed, that makes of a value of that kind what the parameter wants.
pub fn conversion(parameter: Parameter, kind: Kind) -> Option<Instr>
    ensures { listed result ≡ conversion parameter kind }
{
    match parameter {
        Parameter::Of(Kind::Text) => match kind {
            Kind::Text => None,
            Kind::Data | Kind::Number | Kind::Truth => Some(Instr::Show),
        },
        Parameter::Of(Kind::Truth) => match kind {
            Kind::Truth => None,
            Kind::Data | Kind::Number | Kind::Text => Some(Instr::Test),
        },
        Parameter::DataOrText => match kind {
            Kind::Data | Kind::Text => None,
            Kind::Number | Kind::Truth => Some(Instr::Show),
        },
        Parameter::Of(Kind::Data) | Parameter::Of(Kind::Number) => None,
        Parameter::Any | Parameter::NoText => None,
    }
}
