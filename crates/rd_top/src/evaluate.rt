//! Fresh evaluation by plain recursion, within its limits.

ghost use Rattle.std.specs.Prelude.{◌≡◌, ◌≤◌, ℕ, if◌then◌else◌, List, [], IfOk, MatchOption, None, OnOk, Some, Err, length};
ghost use Rattle.std.specs.Arc.{arc_value};
ghost use Rattle.rd_value.specs.declared.class.Class.TheVariants as class;
ghost use Rattle.rd_value.specs.declared.value.FileValue.{FileValue};
ghost use Rattle.rd_value.specs.declared.value.Datum.{Datum};
ghost use Rattle.rd_value.specs.Operators.{kept};
ghost use Rattle.rd_value.specs.Raise as raise;
ghost use Rattle.rd_meaning.specs.Step.{failure_in};
ghost use Rattle.rd_tree.specs.declared.tree.Function.{Function};
ghost use Rattle.rd_tree.specs.declared.tree.Module.{Module};
ghost use Rattle.rd_registry.specs.Fits as fits;
ghost use Rattle.rd_registry.specs.Fresh as fresh;
ghost use Rattle.rd_top.specs.Evaluating.{Evaluates, answer_of, answers_of, ahead, in_front, after, at_depth, step_out, arguments_out, parts_out, seconds_out, values_out, body_out, met_out, otherwise, branch_out, mapped_out, recovered_out};
ghost use Rattle.rd_registry.specs.Bodies.{find_task};
ghost use Rattle.rd_registry.specs.Registry.{IsCodeOf, Registers};
ghost use Rattle.rd_top.specs.Running.{own};

use crate::lazies::lazies;
use rd_base::{Copies, Items, OutOfMemory, Text};
use rd_body::{BodyJob, Finished, Reduction, run_body};
use rd_code::TaskCode;
use rd_meaning::{NamedValues, StepError, apply_op, bind, expand_catch, expand_map};
use rd_registry::Registry;
use rd_tree::Module;
use rd_value::class::Class;
use rd_value::expr::{Expr, OpKind};
use rd_value::failure::{Failure, Outcome};
use rd_value::limits::kept;
use rd_value::raise::raised;
use rd_value::value::{ErrorValue, Pairs, Value, Values};
use std::alloc::Global;
use std::sync::Arc;

/// The most nested expressions.
pub const MOST_NESTED: u32 = 200;

/// The most expressions that are met, counted with repeats.
pub const MOST_MET: u32 = 100_000;

/// Why an evaluation didn't end with an outcome.
#[derive(Clone, Copy, Debug, PartialEq, Eq)]
pub enum Stop {
    TooLarge,
    OutOfMemory,
}

impl From<OutOfMemory> for Stop {
    ghost use Rattle.std.specs.Prelude.{◌≡◌};
    ghost use Rattle.rd_top.specs.declared.evaluate.Stop.TheVariants as stop;

    ghost from_gives = { λ _ s. s ≡ stop.OutOfMemory };

    fn from(_error: OutOfMemory) -> Stop {
        Stop::OutOfMemory
    }
}

/// What was gathered of all parts, or the failure of the leftmost part that failed.
#[derive(Drop)]
pub enum Gathered<T> {
    All(T),
    Failed(Failure),
}

/// Arguments by position, and by keyword.
type Arguments = (Values, NamedValues);

fn in_no_task(alloc: Global, error: ErrorValue) -> Result<Failure, OutOfMemory>
    ensures { IfOk result (λ f. f ≡ failure_in [] error) }
{
    Ok(Failure {
        class: error.class,
        text: error.text,
        origin: Text::from_str(alloc, "")?,
    })
}

fn no_task(alloc: Global, task: &Text) -> Result<Failure, OutOfMemory>
    ensures { IfOk result (λ f. f ≡ failure_in [] (raise.raised class.NameError task.now)) }
{
    in_no_task(alloc, raised(alloc, Class::NameError, task.as_str())?)
}

/// What is made of evaluated parts, within the limits.
fn made(alloc: Global, value: Value) -> Result<Outcome, OutOfMemory>
    ensures { IfOk result (λ outcome. answer_of outcome ≡ (fresh.made (kept own value)).answer) }
{
    match kept(alloc, value)? {
        Ok(value) => Ok(Outcome::Value(value)),
        Err(error) => Ok(Outcome::Failed(in_no_task(alloc, error)?)),
    }
}

/// An operator on evaluated parts.
fn operated(alloc: Global, op: OpKind, parts: &Values) -> Result<Outcome, OutOfMemory>
    ensures { IfOk result (λ outcome. answer_of outcome ≡ (fresh.operated own op parts.now).answer) }
{
    match apply_op(alloc, op, parts) {
        Ok(value) => Ok(Outcome::Value(value)),
        Err(StepError::Failed(failure)) => Ok(Outcome::Failed(failure)),
        Err(StepError::OutOfMemory) => Err(OutOfMemory),
    }
}

/// What was gathered before a part, and what the part came to.
#[tactic(auto, using(crate::proofs::Parts::take_rules))]
fn with_value(
    alloc: Global,
    gathered: Gathered<Values>,
    outcome: Outcome,
) -> Result<Gathered<Values>, OutOfMemory>
    ensures { IfOk result (λ g. (more : fresh.Answer (List (Datum FileValue))) → ahead g more ≡ ahead gathered (in_front (λ v. v) (answer_of outcome) more)) }
{
    match gathered {
        Gathered::All(mut values) => match outcome {
            Outcome::Value(value) => {
                values.push(alloc, value)?;
                Ok(Gathered::All(values))
            }
            Outcome::Failed(failure) => Ok(Gathered::Failed(failure)),
        },
        Gathered::Failed(first) => Ok(Gathered::Failed(first)),
    }
}

/// What was gathered before a pair, and the pair with what its second part came to.
#[tactic(auto, using(crate::proofs::Parts::take_rules))]
fn with_pair<K: Copies>(
    alloc: Global,
    gathered: Gathered<Items<(K, Value)>>,
    key: &K,
    outcome: Outcome,
) -> Result<Gathered<Items<(K, Value)>>, OutOfMemory>
    ensures { IfOk result (λ g. (more : fresh.Answer (List (K × Datum FileValue))) → ahead g more ≡ ahead gathered (in_front (λ v. (key.now, v)) (answer_of outcome) more)) }
{
    match gathered {
        Gathered::All(mut pairs) => match outcome {
            Outcome::Value(value) => {
                pairs.push(alloc, (key.copy(alloc)?, value))?;
                Ok(Gathered::All(pairs))
            }
            Outcome::Failed(failure) => Ok(Gathered::Failed(failure)),
        },
        Gathered::Failed(first) => Ok(Gathered::Failed(first)),
    }
}

/// Both kinds of arguments, or the failure of the leftmost that failed.
fn paired(values: Gathered<Values>, named: Gathered<NamedValues>) -> Gathered<Arguments>
    ensures { answers_of result ≡ fresh.join fresh.paired (answers_of values) (answers_of named) }
{
    match values {
        Gathered::All(values) => match named {
            Gathered::All(named) => Gathered::All((values, named)),
            Gathered::Failed(failure) => Gathered::Failed(failure),
        },
        Gathered::Failed(first) => Gathered::Failed(first),
    }
}

/// Runs the body of a task on its bound arguments.
fn ran(alloc: Global, code: &Arc<TaskCode, Global>, args: Values) -> Result<Finished, OutOfMemory>
    requires { length args ≡ length (arc_value code.now).signature.parameters }
    ensures code { IfOk result (λ finished. arc_value finished.job.code ≡ arc_value code.now) }
    ensures args { IfOk result (λ finished. finished.job.args ≡ args) }
{
    let job = BodyJob {
        number: 0,
        code: code.clone()?,
        args,
    };
    run_body(alloc, job)
}

/// The code of the task of a full name.
fn code_named<'r>(registry: &'r Registry, full_name: &Text) -> Option<&'r Arc<TaskCode, Global>>
    ensures { (m : Module) → Registers m registry.now → MatchOption result (find_task m full_name.now ≡ None) (λ code. (f : Function) × (find_task m full_name.now ≡ Some f) × IsCodeOf m f (arc_value code.now)) }
{
    Some(registry.code(registry.find(full_name)?))
}

/// Evaluates over the tasks of a module.
#[derive(Clone, Copy)]
pub struct Evaluation<'m> {
    alloc: Global,
    tasks: &'m Module,
    registry: &'m Registry,
}

impl<'m> Evaluation<'m> {
    /// What an expression gives at a depth.
    #[cycle(evaluate)]
    #[tactic(auto, using(crate::proofs::Evaluated::expression_rules))]
    fn expression(&self, depth: u32, expr: &Expr, met: &mut u32) -> Result<Outcome, Stop>
        requires registered { Registers self.now.tasks.now self.now.registry.now }
        requires few { met.old ≤ fits.most_met }
        ensures gives { Evaluates answer_of (at_depth self.now.tasks.now depth expr.now) met.old met.new result }
        ensures room { met.new ≤ fits.most_met }
    {
        if depth == 0 {
            return self.at_zero(expr);
        }
        self.step(depth - 1, expr, met)
    }

    /// What an expression gives at no depth.
    #[tactic(auto, using(crate::proofs::Evaluated::zero_rules))]
    fn at_zero(&self, expr: &Expr) -> Result<Outcome, Stop>
        ensures { (met : ℕ) → met ≤ fits.most_met → Evaluates answer_of (at_depth self.now.tasks.now 0 expr.now) met met result }
    {
        match expr {
            Expr::Val(value) => Ok(Outcome::Value(value.copy(self.alloc)?)),
            _ => Err(Stop::TooLarge),
        }
    }

    /// What an expression gives whose parts are evaluated at the depth.
    #[cycle(evaluate)]
    #[tactic(auto, using(crate::proofs::Evaluated::step_rules))]
    fn step(&self, depth: u32, expr: &Expr, met: &mut u32) -> Result<Outcome, Stop>
        requires registered { Registers self.now.tasks.now self.now.registry.now }
        requires few { met.old ≤ fits.most_met }
        ensures gives { Evaluates answer_of (step_out self.now.tasks.now depth expr.now) met.old met.new result }
        ensures room { met.new ≤ fits.most_met }
    {
        match expr {
            Expr::Val(value) => Ok(Outcome::Value(value.copy(self.alloc)?)),
            Expr::Call {
                task,
                positional,
                keywords,
            } => self.call(depth, task, positional.as_slice(), keywords.as_slice(), met),
            Expr::Op { op, parts } => self.operation(depth, *op, parts.as_slice(), met),
            Expr::ListOf(parts) => self.list(depth, parts.as_slice(), met),
            Expr::DictOf(pairs) => self.dict(depth, pairs.as_slice(), met),
            Expr::Cond {
                test,
                when_true,
                when_false,
            } => self.branch(depth, test.get(), when_true.get(), when_false.get(), met),
            Expr::Map { task, list } => self.map(depth, task, list.get(), met),
            Expr::Catch {
                tried,
                class,
                recover,
            } => self.catch(depth, tried.get(), *class, recover, met),
            Expr::Input(_) => Err(Stop::TooLarge),
        }
    }

    /// A call, whose arguments are evaluated at the depth.
    #[cycle(evaluate)]
    #[tactic(auto, using(crate::proofs::Evaluated::after_rules))]
    fn call(
        &self,
        depth: u32,
        task: &Text,
        positional: &[Expr],
        keywords: &[(Text, Expr)],
        met: &mut u32,
    ) -> Result<Outcome, Stop>
        requires registered { Registers self.now.tasks.now self.now.registry.now }
        requires few { met.old ≤ fits.most_met }
        ensures gives { Evaluates answer_of (after (arguments_out self.now.tasks.now depth positional.now keywords.now) (values_out self.now.tasks.now depth task.now)) met.old met.new result }
        ensures room { met.new ≤ fits.most_met }
    {
        match self.arguments(depth, positional, keywords, met) {
            Ok(Gathered::All(arguments)) => self.enter(depth, task, &arguments, met),
            Ok(Gathered::Failed(failure)) => Ok(Outcome::Failed(failure)),
            Err(stop) => Err(stop),
        }
    }

    /// The list of parts that are evaluated at the depth.
    #[cycle(evaluate)]
    #[tactic(auto, using(crate::proofs::Evaluated::after_rules))]
    fn list(&self, depth: u32, parts: &[Expr], met: &mut u32) -> Result<Outcome, Stop>
        requires registered { Registers self.now.tasks.now self.now.registry.now }
        requires few { met.old ≤ fits.most_met }
        ensures gives { Evaluates answer_of (after (parts_out self.now.tasks.now depth parts.now) (fresh.listed own)) met.old met.new result }
        ensures room { met.new ≤ fits.most_met }
    {
        match self.parts(depth, parts, met) {
            Ok(Gathered::All(values)) => Ok(made(self.alloc, Value::List(values))?),
            Ok(Gathered::Failed(failure)) => Ok(Outcome::Failed(failure)),
            Err(stop) => Err(stop),
        }
    }

    /// The dict of parts that are evaluated at the depth.
    #[cycle(evaluate)]
    #[tactic(auto, using(crate::proofs::Evaluated::after_rules))]
    fn dict(&self, depth: u32, pairs: &[(Value, Expr)], met: &mut u32) -> Result<Outcome, Stop>
        requires registered { Registers self.now.tasks.now self.now.registry.now }
        requires few { met.old ≤ fits.most_met }
        ensures gives { Evaluates answer_of (after (seconds_out self.now.tasks.now depth pairs.now) (fresh.keyed own)) met.old met.new result }
        ensures room { met.new ≤ fits.most_met }
    {
        match self.pairs(depth, pairs, met) {
            Ok(Gathered::All(pairs)) => Ok(made(self.alloc, Value::Dict(pairs))?),
            Ok(Gathered::Failed(failure)) => Ok(Outcome::Failed(failure)),
            Err(stop) => Err(stop),
        }
    }

    /// An operator on parts that are evaluated at the depth.
    #[cycle(evaluate)]
    #[tactic(auto, using(crate::proofs::Evaluated::after_rules))]
    fn operation(
        &self,
        depth: u32,
        op: OpKind,
        parts: &[Expr],
        met: &mut u32,
    ) -> Result<Outcome, Stop>
        requires registered { Registers self.now.tasks.now self.now.registry.now }
        requires few { met.old ≤ fits.most_met }
        ensures gives { Evaluates answer_of (after (parts_out self.now.tasks.now depth parts.now) (fresh.operated own op)) met.old met.new result }
        ensures room { met.new ≤ fits.most_met }
    {
        match self.parts(depth, parts, met) {
            Ok(Gathered::All(values)) => Ok(operated(self.alloc, op, &values)?),
            Ok(Gathered::Failed(failure)) => Ok(Outcome::Failed(failure)),
            Err(stop) => Err(stop),
        }
    }

    /// The branch that the truth of the test takes.
    #[cycle(evaluate)]
    #[tactic(auto, using(crate::proofs::Evaluated::value_rules))]
    fn branch(
        &self,
        depth: u32,
        test: &Expr,
        when_true: &Expr,
        when_false: &Expr,
        met: &mut u32,
    ) -> Result<Outcome, Stop>
        requires registered { Registers self.now.tasks.now self.now.registry.now }
        requires few { met.old ≤ fits.most_met }
        ensures gives { Evaluates answer_of (after (at_depth self.now.tasks.now depth test.now) (branch_out self.now.tasks.now depth when_true.now when_false.now)) met.old met.new result }
        ensures room { met.new ≤ fits.most_met }
    {
        match self.expression(depth, test, met) {
            Ok(Outcome::Value(value)) => {
                let taken = if value.truth() { when_true } else { when_false };
                self.expression(depth, taken, met)
            }
            Ok(Outcome::Failed(failure)) => Ok(Outcome::Failed(failure)),
            Err(stop) => Err(stop),
        }
    }

    /// The calls of a task with each item of a list.
    #[cycle(evaluate)]
    #[tactic(auto, using(crate::proofs::Evaluated::value_rules))]
    fn map(&self, depth: u32, task: &Text, list: &Expr, met: &mut u32) -> Result<Outcome, Stop>
        requires registered { Registers self.now.tasks.now self.now.registry.now }
        requires few { met.old ≤ fits.most_met }
        ensures gives { Evaluates answer_of (after (at_depth self.now.tasks.now depth list.now) (mapped_out self.now.tasks.now depth task.now)) met.old met.new result }
        ensures room { met.new ≤ fits.most_met }
    {
        match self.expression(depth, list, met) {
            Ok(Outcome::Value(value)) => self.mapped(depth, task, &value, met),
            Ok(Outcome::Failed(failure)) => Ok(Outcome::Failed(failure)),
            Err(stop) => Err(stop),
        }
    }

    /// The calls of a task with each item of a value.
    #[cycle(evaluate)]
    #[tactic(auto, using(crate::proofs::Evaluated::expansion_rules))]
    fn mapped(&self, depth: u32, task: &Text, value: &Value, met: &mut u32) -> Result<Outcome, Stop>
        requires registered { Registers self.now.tasks.now self.now.registry.now }
        requires few { met.old ≤ fits.most_met }
        ensures gives { Evaluates answer_of (mapped_out self.now.tasks.now depth task.now value.now) met.old met.new result }
        ensures room { met.new ≤ fits.most_met }
    {
        match expand_map(self.alloc, task.as_str(), value) {
            Ok(calls) => self.go_on(depth, &calls, met),
            Err(StepError::Failed(failure)) => Ok(Outcome::Failed(failure)),
            Err(StepError::OutOfMemory) => Err(Stop::OutOfMemory),
        }
    }

    /// The outcome of what is tried, or of what recovers from its failure.
    #[cycle(evaluate)]
    #[tactic(auto, using(crate::proofs::Evaluated::catch_rules))]
    fn catch(
        &self,
        depth: u32,
        tried: &Expr,
        class: Class,
        recover: &Text,
        met: &mut u32,
    ) -> Result<Outcome, Stop>
        requires registered { Registers self.now.tasks.now self.now.registry.now }
        requires few { met.old ≤ fits.most_met }
        ensures gives { Evaluates answer_of (otherwise (at_depth self.now.tasks.now depth tried.now) (recovered_out self.now.tasks.now depth class recover.now)) met.old met.new result }
        ensures room { met.new ≤ fits.most_met }
    {
        match self.expression(depth, tried, met) {
            Ok(Outcome::Value(value)) => Ok(Outcome::Value(value)),
            Ok(Outcome::Failed(failure)) => self.recovered(depth, class, recover, failure, met),
            Err(stop) => Err(stop),
        }
    }

    /// What comes of a failure that a class may catch.
    #[cycle(evaluate)]
    #[tactic(auto, using(crate::proofs::Evaluated::expansion_rules))]
    fn recovered(
        &self,
        depth: u32,
        class: Class,
        recover: &Text,
        failure: Failure,
        met: &mut u32,
    ) -> Result<Outcome, Stop>
        requires registered { Registers self.now.tasks.now self.now.registry.now }
        requires few { met.old ≤ fits.most_met }
        ensures gives { Evaluates answer_of (recovered_out self.now.tasks.now depth class recover.now failure) met.old met.new result }
        ensures room { met.new ≤ fits.most_met }
    {
        match expand_catch(self.alloc, class, recover.as_str(), &failure)? {
            Some(call) => self.go_on(depth, &call, met),
            None => Ok(Outcome::Failed(failure)),
        }
    }

    /// A call of values.
    #[cycle(evaluate)]
    #[tactic(auto, using(crate::proofs::Evaluated::enter_rules))]
    fn enter(
        &self,
        depth: u32,
        task: &Text,
        arguments: &Arguments,
        met: &mut u32,
    ) -> Result<Outcome, Stop>
        requires registered { Registers self.now.tasks.now self.now.registry.now }
        requires few { met.old ≤ fits.most_met }
        ensures gives { Evaluates answer_of (values_out self.now.tasks.now depth task.now arguments.now) met.old met.new result }
        ensures room { met.new ≤ fits.most_met }
    {
        match code_named(self.registry, task) {
            None => Ok(Outcome::Failed(no_task(self.alloc, task)?)),
            Some(code) => {
                match bind(
                    self.alloc,
                    task.as_str(),
                    &code.signature,
                    &arguments.0,
                    &arguments.1,
                ) {
                    Ok(values) => self.body(depth, code, values, met),
                    Err(StepError::Failed(failure)) => Ok(Outcome::Failed(failure)),
                    Err(StepError::OutOfMemory) => Err(Stop::OutOfMemory),
                }
            }
        }
    }

    /// The body of a task on its bound arguments, and what it gives.
    #[cycle(evaluate)]
    #[tactic(auto, using(crate::proofs::Evaluated::body_rules))]
    fn body(
        &self,
        depth: u32,
        code: &Arc<TaskCode, Global>,
        arguments: Values,
        met: &mut u32,
    ) -> Result<Outcome, Stop>
        requires registered { Registers self.now.tasks.now self.now.registry.now }
        requires few { met.old ≤ fits.most_met }
        requires one_each { length arguments ≡ length (arc_value code.now).signature.parameters }
        ensures gives { (f : Function) → IsCodeOf self.now.tasks.now f (arc_value code.now) → Evaluates answer_of (body_out self.now.tasks.now depth (arc_value code.now).full_name f arguments) met.old met.new result }
        ensures room { met.new ≤ fits.most_met }
    {
        let finished = ran(self.alloc, code, arguments)?;
        match finished.reduction() {
            Reduction::Expr(expr) => self.go_on(depth, expr, met),
            Reduction::Failed(failure) => Ok(Outcome::Failed(failure.copy(self.alloc)?)),
        }
    }

    /// An expression that is met, and then evaluated.
    #[cycle(evaluate)]
    #[tactic(auto, using(crate::proofs::Evaluated::met_rules))]
    fn go_on(&self, depth: u32, expr: &Expr, met: &mut u32) -> Result<Outcome, Stop>
        requires registered { Registers self.now.tasks.now self.now.registry.now }
        requires few { met.old ≤ fits.most_met }
        ensures gives { Evaluates answer_of (met_out self.now.tasks.now depth expr.now) met.old met.new result }
        ensures room { met.new ≤ fits.most_met }
    {
        let more = lazies(expr);
        if more > MOST_MET - *met {
            return Err(Stop::TooLarge);
        }
        *met += more;
        self.expression(depth, expr, met)
    }

    /// All arguments, those by position first.
    #[cycle(evaluate)]
    #[tactic(auto, using(crate::proofs::Evaluated::both_rules))]
    fn arguments(
        &self,
        depth: u32,
        positional: &[Expr],
        keywords: &[(Text, Expr)],
        met: &mut u32,
    ) -> Result<Gathered<Arguments>, Stop>
        requires registered { Registers self.now.tasks.now self.now.registry.now }
        requires few { met.old ≤ fits.most_met }
        ensures gives { Evaluates answers_of (arguments_out self.now.tasks.now depth positional.now keywords.now) met.old met.new result }
        ensures room { met.new ≤ fits.most_met }
    {
        match self.parts(depth, positional, met) {
            Ok(values) => match self.keywords(depth, keywords, met) {
                Ok(named) => Ok(paired(values, named)),
                Err(stop) => Err(stop),
            },
            Err(stop) => Err(stop),
        }
    }

    /// All parts from the left, also behind one that fails.
    #[cycle(evaluate)]
    fn parts(&self, depth: u32, parts: &[Expr], met: &mut u32) -> Result<Gathered<Values>, Stop>
        requires registered { Registers self.now.tasks.now self.now.registry.now }
        requires few { met.old ≤ fits.most_met }
        ensures gives { Evaluates answers_of (parts_out self.now.tasks.now depth parts.now) met.old met.new result }
        ensures room { met.new ≤ fits.most_met }
    {
        let mut gathered = Gathered::All(Items::new(self.alloc));
        for part in parts {
            match self.expression(depth, part, met) {
                Ok(outcome) => gathered = with_value(self.alloc, gathered, outcome)?,
                Err(stop) => return Err(stop),
            }
        }
        Ok(gathered)
    }

    /// All keywords' parts from the left, also behind one that fails.
    #[cycle(evaluate)]
    fn keywords(
        &self,
        depth: u32,
        keywords: &[(Text, Expr)],
        met: &mut u32,
    ) -> Result<Gathered<NamedValues>, Stop>
        requires registered { Registers self.now.tasks.now self.now.registry.now }
        requires few { met.old ≤ fits.most_met }
        ensures gives { Evaluates answers_of (seconds_out self.now.tasks.now depth keywords.now) met.old met.new result }
        ensures room { met.new ≤ fits.most_met }
    {
        let mut gathered = Gathered::All(Items::new(self.alloc));
        for (name, part) in keywords {
            match self.expression(depth, part, met) {
                Ok(outcome) => gathered = with_pair(self.alloc, gathered, name, outcome)?,
                Err(stop) => return Err(stop),
            }
        }
        Ok(gathered)
    }

    /// All pairs' second parts from the left, also behind one that fails.
    #[cycle(evaluate)]
    fn pairs(
        &self,
        depth: u32,
        pairs: &[(Value, Expr)],
        met: &mut u32,
    ) -> Result<Gathered<Pairs>, Stop>
        requires registered { Registers self.now.tasks.now self.now.registry.now }
        requires few { met.old ≤ fits.most_met }
        ensures gives { Evaluates answers_of (seconds_out self.now.tasks.now depth pairs.now) met.old met.new result }
        ensures room { met.new ≤ fits.most_met }
    {
        let mut gathered = Gathered::All(Items::new(self.alloc));
        for (key, part) in pairs {
            match self.expression(depth, part, met) {
                Ok(outcome) => gathered = with_pair(self.alloc, gathered, key, outcome)?,
                Err(stop) => return Err(stop),
            }
        }
        Ok(gathered)
    }
}

/// What fresh evaluation of an expression gives, where the evaluation fits.
pub fn evaluate(
    alloc: Global,
    module: &Module,
    registry: &Registry,
    expr: &Expr,
) -> Result<Outcome, Stop>
    requires { Registers «module».now registry.now }
    ensures fits { OnOk result (fits.Fits own «module».now expr.now) }
    ensures gives { IfOk result (λ outcome. fits.FreshGives own «module».now expr.now (answer_of outcome)) }
    ensures too_large { result ≡ Err Stop.TooLarge → fits.Fits own «module».now expr.now → ⊥ }
{
    let evaluation = Evaluation {
        alloc,
        tasks: module,
        registry,
    };
    let mut met = 0;
    match evaluation.go_on(MOST_NESTED, expr, &mut met) {
        Ok(outcome) => Ok(outcome),
        Err(stop) => Err(stop),
    }
}
