//! What the lines of a text have stated so far.

ghost use Rattle.std.specs.Prelude.{◌≡◌, ◌≢◌, ◌==◌, nat_le, true, false, length, None, Ok, Err, MatchResult, IfErr};
ghost use Rattle.std.specs.Prelude.{OnOk};
ghost use Rattle.scenario_words.specs.declared.cause.Cause.{Cause};
ghost use Rattle.scenario_words.specs.declared.cause.Cause.TheVariants.{Limit, Memory, Missing};
ghost use Rattle.device_machine.specs.declared.event.Event.TheVariants as event;
ghost use Rattle.std.specs.List.{list_any};
ghost use Rattle.scenario_image.specs.Scenario.{accounts_of, last_row};
ghost use Rattle.scenario_image.specs.declared.step.Step.TheVariants as step;
ghost use Rattle.scenario_statements.specs.declared.statement.Statement.TheVariants as says;
ghost use Rattle.scenario_mnemonics.specs.Messages.{datagram_of};
ghost use Rattle.scenario_asm.specs.Causes.{Makes, needs};
ghost use Rattle.scenario_asm.specs.ClassLines.{account_added, definition_added, instance_added, object_added};
ghost use Rattle.scenario_asm.specs.ClassLines.{notify_set, value_added};
ghost use Rattle.scenario_asm.specs.Draft.{closed_scenario, nothing};
ghost use Rattle.scenario_asm.specs.Effect.{class_begun, device_begun, device_step, effect, has_device, has_server};
ghost use Rattle.scenario_asm.specs.Effect.{if_path_fits, in_class, in_object, is_refused_first, last_class};
ghost use Rattle.scenario_asm.specs.Effect.{reopened_with, step_added, with_open_class};
ghost use Rattle.scenario_asm.specs.Limits.{has_all_steps, limit_in, limit_of, step_limit};
ghost use Rattle.scenario_asm.specs.Text.{line_after, whole_scenario};
ghost use Rattle.scenario_asm.specs.declared.fault.AsmFault.{AsmFault};

use crate::causes::of_scenario;
use crate::class::{add_account, add_definition, add_instance, add_object, add_value, set_notify};
use crate::fault::AsmFault;
use crate::limit::{LineFault, ScenarioLimit, length_limit, line_fault, value_limit};
use device_machine::{Event, Template};
use lwm2m_values::Value;
use object_defs::{InstancePath, Path, ResourceDef};
use octets::Bytes;
use scenario_image::{Scenario, Step, is_account};
use scenario_mnemonics::{Mnemonic, encode};
use scenario_statements::{Statement, read_statement};
use scenario_words::Cause;
use std::alloc::Global;
use std::marker::Model;

/// How many steps a device may have.
const MOST_STEPS: usize = 4096;

/// What the lines of a text have stated so far. A draft that refused a line is of no use any more.
#[derive(Drop)]
pub(crate) struct Draft {
    begun: bool,
    scenario: Scenario,
    open_class: Option<Template>,
    object: Option<u16>,
}

impl Model for Draft {
    ghost use Rattle.std.specs.Coded.{codes};
    ghost use Rattle.instance_store.specs.Stored.{stored_code};
    ghost use Rattle.scenario_asm.specs.Draft.{Draft, HasRoom};

    ghost Value = { Draft };

    ghost coded = { Prim.hlevel (codes, stored_code) };

    ghost view = { λ d. record {
      begun = d.begun;
      scenario = d.scenario;
      open_class = d.open_class;
      object = d.object;
    } };

    ghost invariant = { λ d. HasRoom (record {
      begun = d.begun;
      scenario = d.scenario;
      open_class = d.open_class;
      object = d.object;
    }) };
}

impl Draft {
    /// Nothing was stated.
    pub(crate) fn nothing(alloc: Global) -> Draft
        ensures { result ≡ nothing }
    {
        Draft {
            begun: false,
            scenario: Scenario::empty(alloc),
            open_class: None,
            object: None,
        }
    }

    fn begin(&mut self) -> Result<(), Cause>
        ensures made { Makes result self.new (effect says.Scenario self.old) }
        ensures no_memory { IfErr result (λ c. c ≢ Memory) }
    {
        if self.begun {
            return Err(Cause::Duplicate);
        }
        self.begun = true;
        Ok(())
    }

    /// Adds the open class to the scenario, if there is one.
    fn close(&mut self) -> Result<(), Cause>
        ensures closed { OnOk result (self.new ≡ record
            { begun = self.old.begun; scenario = closed_scenario self.old; open_class = None; object = None }) }
        ensures memory { IfErr result (λ e. e ≢ Memory → ⊥) }
    {
        self.object = None;
        match self.open_class.take() {
            None => Ok(()),
            Some(class) => of_scenario(self.scenario.add_class(class)),
        }
    }

    /// Whether there are as many classes as there may be.
    fn is_full(&self) -> bool
        ensures { result ≡ nat_le 256 (length self.now.scenario.classes) }
    {
        self.scenario.class(255).is_some()
    }

    fn begin_class(&mut self, alloc: Global) -> Result<(), Cause>
        ensures { Makes result self.new (class_begun self.old) }
    {
        self.close()?;
        if self.is_full() {
            return Err(Cause::Limit);
        }
        self.open_class = Some(Template::new(alloc)?);
        Ok(())
    }

    fn begin_device(&mut self, class: u16) -> Result<(), Cause>
        ensures { Makes result self.new (device_begun class self.old) }
    {
        self.close()?;
        of_scenario(self.scenario.add_row(class))
    }

    fn account(&mut self, server: u16) -> Result<(), Cause>
        ensures made { Makes result self.new
            (in_class self.old (account_added server) (with_open_class self.old) self.old.open_class) }
        ensures refused { (c : Cause)
            → in_class self.old (account_added server) (with_open_class self.old) self.old.open_class ≡ Err c
            → result ≡ Err c }
    {
        match &mut self.open_class {
            None => Err(Cause::Missing),
            Some(class) => add_account(class, server),
        }
    }

    fn notify(&mut self, seconds: u8) -> Result<(), Cause>
        ensures made { Makes result self.new
            (in_class self.old (notify_set seconds) (with_open_class self.old) self.old.open_class) }
        ensures refused { (c : Cause)
            → in_class self.old (notify_set seconds) (with_open_class self.old) self.old.open_class ≡ Err c
            → result ≡ Err c }
    {
        match &mut self.open_class {
            None => Err(Cause::Missing),
            Some(class) => set_notify(class, seconds),
        }
    }

    fn object(&mut self, id: u16) -> Result<(), Cause>
        ensures made { Makes result self.new
            (in_class self.old (object_added id) (reopened_with id self.old) self.old.open_class) }
        ensures refused { (c : Cause)
            → in_class self.old (object_added id) (reopened_with id self.old) self.old.open_class ≡ Err c
            → result ≡ Err c }
    {
        self.object = Some(id);
        match &mut self.open_class {
            None => Err(Cause::Missing),
            Some(class) => add_object(class, id),
        }
    }

    fn definition(&mut self, definition: ResourceDef) -> Result<(), Cause>
        ensures made { Makes result self.new
            (in_class self.old (in_object self.old.object (λ object. definition_added object definition))
            (with_open_class self.old) self.old.open_class) }
        ensures refused { (c : Cause)
            → in_class self.old (in_object self.old.object (λ object. definition_added object definition))
            (with_open_class self.old) self.old.open_class ≡ Err c
            → result ≡ Err c }
    {
        let object = self.object;
        match (&mut self.open_class, object) {
            (Some(class), Some(object)) => add_definition(class, object, definition),
            _ => Err(Cause::Missing),
        }
    }

    fn instance(&mut self, place: InstancePath) -> Result<(), Cause>
        ensures made { Makes result self.new
            (in_class self.old (instance_added place) (with_open_class self.old) self.old.open_class) }
        ensures refused { (c : Cause)
            → in_class self.old (instance_added place) (with_open_class self.old) self.old.open_class ≡ Err c
            → result ≡ Err c }
    {
        match &mut self.open_class {
            None => Err(Cause::Missing),
            Some(class) => add_instance(class, place),
        }
    }

    fn value(&mut self, alloc: Global, path: Path, value: Value) -> Result<(), Cause>
        ensures { Makes result self.new (in_class self.old (value_added path value)
            (with_open_class self.old) self.old.open_class) }
    {
        match &mut self.open_class {
            None => Err(Cause::Missing),
            Some(class) => add_value(alloc, class, path, value),
        }
    }

    /// Whether a device was stated.
    fn has_device(&self) -> bool
        ensures { result ≡ has_device self.now }
    {
        self.scenario.rows() > 0
    }

    /// The class of the device that was stated last, by its place.
    #[tactic(auto, using(crate::proofs::Lines::class_at))]
    fn last_class(&self) -> Option<u16>
        ensures { result ≡ last_class self.now.scenario }
    {
        let rows = self.scenario.rows();
        if rows == 0 {
            return None;
        }
        let (class, _) = self.scenario.row((rows - 1) as u16)?;
        Some(class)
    }

    /// Whether the server is an account of the class at this place.
    fn has_account(&self, class: u16, server: u16) -> bool
        ensures { result ≡ list_any (λ account. account == server) (accounts_of self.now.scenario.classes class) }
    {
        match self.scenario.class(class) {
            None => false,
            Some(class) => is_account(class.accounts(), server),
        }
    }

    /// Whether the server is an account of the class of the device that was stated last.
    fn has_server(&self, server: u16) -> bool
        ensures { result ≡ has_server self.now server }
    {
        match self.last_class() {
            None => false,
            Some(class) => self.has_account(class, server),
        }
    }

    fn add_step(&mut self, step: Step) -> Result<(), Cause>
        ensures made { Makes result self.new (step_added step self.old) }
        ensures refused { (c : Cause) → step_added step self.old ≡ Err c → result ≡ Err c }
    {
        of_scenario(self.scenario.add_step(step))
    }

    /// A step of the device that was stated last.
    fn device_step(&mut self, step: Step) -> Result<(), Cause>
        ensures made { Makes result self.new (device_step step self.old) }
        ensures refused { (c : Cause) → device_step step self.old ≡ Err c → result ≡ Err c }
    {
        if !self.has_device() {
            return Err(Cause::Missing);
        }
        self.add_step(step)
    }

    fn datagram(&mut self, server: u16, bytes: Bytes) -> Result<(), Cause>
        ensures made { Makes result self.new
            (needs (has_server self.old server) (step_added (step.Event (event.Recv server bytes)) self.old)) }
        ensures refused { (c : Cause)
            → needs (has_server self.old server) (step_added (step.Event (event.Recv server bytes)) self.old) ≡ Err c
            → result ≡ Err c }
    {
        if !self.has_server(server) {
            return Err(Cause::Missing);
        }
        self.add_step(Step::Event(Event::Recv { server, bytes }))
    }

    fn request(&mut self, alloc: Global, server: u16, mnemonic: &Mnemonic) -> Result<(), Cause>
        ensures made { Makes result self.new
            (needs (has_server self.old server) (if_path_fits mnemonic.now
            (step_added (step.Event (event.Recv server (datagram_of mnemonic.now))) self.old))) }
        ensures refused { (c : Cause)
            → needs (has_server self.old server) (if_path_fits mnemonic.now (Ok self.old)) ≡ Err c → result ≡ Err c }
    {
        if !self.has_server(server) {
            return Err(Cause::Missing);
        }
        if !mnemonic.fits() {
            return Err(Cause::Range);
        }
        let bytes = encode(alloc, mnemonic)?;
        self.add_step(Step::Event(Event::Recv { server, bytes }))
    }

    /// Takes what a line says.
    fn apply(&mut self, alloc: Global, statement: Statement) -> Result<(), Cause>
        ensures made { Makes result self.new (effect statement self.old) }
        ensures unbegun { self.old.begun ≡ false → statement ≢ says.Scenario → result ≡ Err Missing }
        ensures refused { (c : Cause)
            → is_refused_first statement ≡ true → effect statement self.old ≡ Err c → result ≡ Err c }
    {
        match statement {
            Statement::Scenario => self.begin(),
            _ if !self.begun => Err(Cause::Missing),
            Statement::Class => self.begin_class(alloc),
            Statement::Notify(seconds) => self.notify(seconds),
            Statement::Account(server) => self.account(server),
            Statement::Object(id) => self.object(id),
            Statement::Def(definition) => self.definition(definition),
            Statement::Instance(place) => self.instance(place),
            Statement::Value { path, value } => self.value(alloc, path, value),
            Statement::Device(class) => self.begin_device(class),
            Statement::Recv { server, bytes } => self.datagram(server, bytes),
            Statement::Request { server, mnemonic } => self.request(alloc, server, &mnemonic),
            Statement::Tick(seconds) => self.device_step(Step::Event(Event::Tick(seconds))),
            Statement::Put { path, value } => {
                self.device_step(Step::Event(Event::Put { path, value }))
            }
            Statement::Firmware(code) => self.device_step(Step::Event(Event::Firmware(code))),
            Statement::Post(group) => self.device_step(Step::Post(group)),
            Statement::Need { group, count } => self.device_step(Step::Need(group, count)),
        }
    }

    /// Whether the device that was stated last has as many steps as it may have.
    #[tactic(auto, using(crate::proofs::Lines::steps_at))]
    fn has_all_steps(&self) -> bool
        ensures { result ≡ has_all_steps (last_row self.now.scenario.rows) }
    {
        let rows = self.scenario.rows();
        if rows == 0 {
            return false;
        }
        match self.scenario.row((rows - 1) as u16) {
            None => false,
            Some((_, steps)) => steps.len() >= MOST_STEPS,
        }
    }

    /// The limit that a step passes which is refused for one, where it has this limit of its length.
    fn step_limit(&self, long: Option<ScenarioLimit>) -> Option<ScenarioLimit>
        ensures { result ≡ step_limit self.now long }
    {
        if self.has_all_steps() {
            return Some(ScenarioLimit::Steps);
        }
        long
    }

    /// The limit that a statement passes, where it is refused for one.
    fn limit_of(&self, statement: &Statement) -> Option<ScenarioLimit>
        ensures { result ≡ limit_of statement.now self.now }
    {
        match statement {
            Statement::Scenario | Statement::Notify(_) => None,
            Statement::Class => Some(ScenarioLimit::Classes),
            Statement::Account(_) => Some(ScenarioLimit::Accounts),
            Statement::Object(_) => Some(ScenarioLimit::Objects),
            Statement::Def(_) => Some(ScenarioLimit::Resources),
            Statement::Instance(_) => Some(ScenarioLimit::Instances),
            Statement::Value { value, .. } => value_limit(value, self.open_class.as_ref()),
            Statement::Device(_) => Some(ScenarioLimit::Devices),
            Statement::Recv { .. } | Statement::Request { .. } => {
                self.step_limit(Some(ScenarioLimit::Datagram))
            }
            Statement::Put { value, .. } => self.step_limit(length_limit(value)),
            Statement::Tick(_)
            | Statement::Firmware(_)
            | Statement::Post(_)
            | Statement::Need { .. } => self.step_limit(None),
        }
    }

    /// Takes what a line says, or says which limit it passes.
    fn take(&mut self, alloc: Global, statement: Statement) -> Result<(), LineFault>
        ensures made { MatchResult result (λ _. effect statement self.old ≡ Ok self.new)
            (λ f. f.cause ≢ Memory → effect statement self.old ≡ Err f.cause) }
        ensures limit { IfErr result (λ f. f.cause ≡ Limit → f.limit ≡ limit_of statement self.old) }
        ensures no_limit { IfErr result (λ f. f.cause ≢ Limit → f.limit ≡ None) }
    {
        let limit = self.limit_of(&statement);
        match self.apply(alloc, statement) {
            Ok(()) => Ok(()),
            Err(cause) => Err(line_fault(cause, limit)),
        }
    }

    /// Takes a line, without the LF that ends it.
    pub(crate) fn take_line(&mut self, alloc: Global, line: &[u8]) -> Result<(), LineFault>
        ensures made { MatchResult result (λ _. line_after line.now self.old ≡ Ok self.new)
            (λ f. f.cause ≢ Memory → line_after line.now self.old ≡ Err f.cause) }
        ensures limit { IfErr result (λ f. f.cause ≡ Limit → f.limit ≡ limit_in line.now self.old) }
        ensures no_limit { IfErr result (λ f. f.cause ≢ Limit → f.limit ≡ None) }
    {
        match read_statement(alloc, line) {
            Err(cause) => Err(line_fault(cause, None)),
            Ok(None) => Ok(()),
            Ok(Some(statement)) => self.take(alloc, statement),
        }
    }

    /// The scenario that was stated, after n lines.
    pub(crate) fn finish(mut self, lines: usize) -> Result<Scenario, AsmFault>
        ensures made { MatchResult result (λ s. whole_scenario self ≡ Ok s)
            (λ f. f.cause ≢ Memory → whole_scenario self ≡ Err f) }
        ensures refused { (f : AsmFault) → whole_scenario self ≡ Err f → result ≡ Err f }
        ensures memory { IfErr result (λ f. f.cause ≡ Memory → f.line ≡ lines) }
    {
        if !self.begun {
            return Err(AsmFault {
                line: 1,
                cause: Cause::Missing,
            });
        }
        match self.close() {
            Ok(()) => Ok(self.scenario),
            Err(cause) => Err(AsmFault { line: lines, cause }),
        }
    }
}
