//! The panel: a machine over commands.

ghost use Rattle.std.specs.Prelude.{◌≡◌, ◌<◌, IfNone, IfOk, IfSome, None, OnErr, OnOk, Some, length, option_map};
ghost use Rattle.std.specs.Result.{result_err};
ghost use Rattle.edd_syntax.specs.Answers.{answer_of};
ghost use Rattle.edd_syntax.specs.DeviceValues.{AreDeviceValues};
ghost use Rattle.edd_image.specs.Fields.{counts_in};
ghost use Rattle.edd_machine.specs.Types.{types_in};
ghost use Rattle.edd_port.specs.Faults.{answer_fault_of};
ghost use Rattle.edd_port.specs.Turns.{turn_of};
ghost use Rattle.edd_panel.specs.Advances.{Advances, answer_refusal, answered_by};
ghost use Rattle.edd_panel.specs.Happens.{AtMenu, AtVariable, Chooses, Edits, Enters, Happens, OpensEntry, OpensOne, StartsOr, level_of, reads_in};
ghost use Rattle.edd_panel.specs.Screens.{IsScreen, numbered};
ghost use Rattle.edd_panel.specs.Standing.{current, opened};

use crate::command::{Command, Happened};
use crate::deciding::{decide, set};
use crate::entries::{Entry, Listing, list_entries};
use crate::place::{Field, Level, Place};
use crate::replies::reply;
use edd_loader::Image;
use edd_machine::Values;
use edd_port::{AnswerFault, Session, Turn};
use edd_syntax::answer::Answer;
use edd_syntax::numbers::{ItemNo, MethNo};
use std::alloc::{AllocError, Global};
use std::marker::Model;

/// A communicator over an image: where its user is, the values of the device, and the method that
/// runs. Contracts see it as a `Standing`.
#[derive(Drop)]
pub struct Panel<'i, 'b> {
    image: &'i Image<'b>,
    // The code of the language in which texts are shown.
    language: &'i str,
    values: Values,
    path: Vec<Level>,
    field: Option<Field>,
    session: Option<Session<'i, 'b>>,
}

impl<'i, 'b> Model for Panel<'i, 'b> {
    ghost use Rattle.std.specs.Prelude.{◌≡◌};
    ghost use Rattle.std.specs.Option.{ForSome};
    ghost use Rattle.edd_syntax.specs.DeviceValues.{AreDeviceValues};
    ghost use Rattle.edd_machine.specs.Types.{types_in};
    ghost use Rattle.edd_panel.specs.Standing.{Standing};

    ghost Value = { Standing };

    ghost view = { λ p. record {
      image = p.image.now;
      values = p.values.numbers.items;
      path = p.path.items;
      field = p.field;
      run = p.session;
    } };

    ghost invariant = { λ p. AreDeviceValues (types_in p.image.now) p.values.numbers.items
        × ForSome p.session (λ run. run.image ≡ p.image.now) };
}

// The values of a method that is over are those of the device.
fn keep(values: &mut Values, left: &Values)
    requires { length values.old.numbers.items ≡ length left.now.numbers.items }
    ensures { values.new.numbers.items ≡ left.now.numbers.items }
{
    values
        .numbers
        .as_mut_slice()
        .copy_from_slice(left.numbers.as_slice());
}

// The values of a method that runs, which are those of a device.
fn values_in<'s>(session: &'s Session<'_, '_>) -> &'s Values
    ensures current { result.now.numbers.items ≡ session.now.state.values }
    ensures valid { AreDeviceValues (types_in session.now.image) result.now.numbers.items }
{
    session.turn();
    session.values()
}

// The entry of a number on a screen, if there is one.
fn entry_of(listing: Listing, number: i64) -> Option<Entry>
    ensures { result ≡ numbered listing.lines.items number }
{
    listing.numbered(number)
}

impl<'i, 'b> Panel<'i, 'b> {
    /// A panel at its top screen, if the values are those of a device of this description.
    pub fn open(
        alloc: Global,
        image: &'i Image<'b>,
        language: &'i str,
        values: Values,
    ) -> Option<Panel<'i, 'b>>
        ensures opened { IfSome result (λ panel. panel ≡ opened image.now values.numbers.items) }
        ensures accepted { IfSome result (λ panel.
            AreDeviceValues (types_in image.now) values.numbers.items) }
        ensures refused { IfNone result
            (¬ AreDeviceValues (types_in image.now) values.numbers.items) }
    {
        if !values.are_of(image) {
            return None;
        }
        Some(Panel {
            image,
            language,
            values,
            path: Vec::new(alloc),
            field: None,
            session: None,
        })
    }

    /// The values as the user sees them: those of the method that runs, or of the device.
    pub fn values(&self) -> &Values
        ensures current { result.now.numbers.items ≡ current self.now }
        ensures valid { AreDeviceValues (types_in self.now.image) result.now.numbers.items }
        ensures device { AreDeviceValues (types_in self.now.image) self.now.values }
    {
        match &self.session {
            Some(session) => values_in(session),
            None => &self.values,
        }
    }

    /// Where the method is that runs, if one does.
    pub fn turn(&self) -> Option<Turn>
        ensures { result ≡ option_map (λ run. turn_of run.state.status) self.now.run }
    {
        match &self.session {
            Some(session) => Some(session.turn()),
            None => None,
        }
    }

    // An edit of the variable that is open.
    fn edit(&mut self, alloc: Global, field: Field, number: i64) -> Result<Happened, AllocError>
        ensures edits { IfOk result (λ happened. Edits self.old field number happened self.new) }
        ensures kept { OnErr result (self.new ≡ self.old) }
    {
        if let Some(fault) = decide(alloc, self.image, &self.values, field, number)? {
            return Ok(Happened::Refused(fault));
        }
        set(&mut self.values, field.variable, number);
        self.field = None;
        Ok(Happened::Edited(field.variable, number))
    }

    fn at_variable(
        &mut self,
        alloc: Global,
        field: Field,
        command: Command,
    ) -> Result<Happened, AllocError>
        ensures does { IfOk result (λ happened. AtVariable self.old field command happened
            self.new) }
        ensures kept { OnErr result (self.new ≡ self.old) }
    {
        match command {
            Command::Number(number) => self.edit(alloc, field, number),
            Command::Enter | Command::Back => {
                self.field = None;
                Ok(Happened::Moved)
            }
            Command::Abort => Ok(Happened::Unknown),
        }
    }

    // Starts a method under a copy of the values.
    fn start(&mut self, alloc: Global, method: MethNo) -> Result<Happened, AllocError>
        ensures does { IfOk result (λ happened. StartsOr self.old method happened self.new) }
        ensures kept { OnErr result (self.new ≡ self.old) }
    {
        let numbers = Vec::from_slice(alloc, self.values.numbers.as_slice())?;
        match Session::start(self.image, method, Values { numbers }) {
            Ok(session) => {
                self.session = Some(session);
                Ok(Happened::Started(method))
            }
            Err((fault, _)) => Ok(Happened::NotStarted(fault)),
        }
    }

    fn enter(&mut self, place: Place, read_only: bool) -> Result<Happened, AllocError>
        ensures does { IfOk result (λ happened. Enters self.old place read_only happened self.new) }
        ensures kept { OnErr result (self.new ≡ self.old) }
    {
        self.path.push(Level { place, read_only })?;
        Ok(Happened::Moved)
    }

    // Opens an entry of the screen that is shown.
    fn open_entry(&mut self, alloc: Global, entry: Entry) -> Result<Happened, AllocError>
        ensures does { IfOk result (λ happened. OpensEntry self.old (level_of self.old.path) entry
            happened self.new) }
        ensures kept { OnErr result (self.new ≡ self.old) }
    {
        if let Some(trap) = entry.trap {
            return Ok(Happened::Trapped(trap));
        }
        let read_only = self.level().read_only || entry.is_read_only();
        match entry.item {
            ItemNo::Variable(variable) => {
                self.field = Some(Field {
                    variable,
                    read_only,
                });
                Ok(Happened::Moved)
            }
            ItemNo::Menu(menu) => self.enter(Place::Menu(menu), read_only),
            ItemNo::Collection(collection) => self.enter(Place::Collection(collection), read_only),
            ItemNo::Method(method) => self.start(alloc, method),
            ItemNo::Command(_) | ItemNo::Array(_) => Ok(Happened::NoEntry),
        }
    }

    // Opens the entry that has a number, if one has it.
    fn open_one(&mut self, alloc: Global, entry: Option<Entry>) -> Result<Happened, AllocError>
        ensures does { IfOk result (λ happened. OpensOne self.old (level_of self.old.path) entry
            happened self.new) }
        ensures kept { OnErr result (self.new ≡ self.old) }
    {
        match entry {
            Some(entry) => self.open_entry(alloc, entry),
            None => Ok(Happened::NoEntry),
        }
    }

    /// The level whose screen is shown.
    pub fn level(&self) -> Level
        ensures { result ≡ level_of self.now.path }
    {
        let mut level = Level {
            place: Place::Top,
            read_only: false,
        };
        for next in &self.path {
            level = *next;
        }
        level
    }

    /// How many levels the user is below the top.
    pub fn depth(&self) -> usize
        ensures { result ≡ length self.now.path }
    {
        self.path.len()
    }

    // The lines of the screen that is shown.
    fn screen(&self, alloc: Global) -> Result<Listing, AllocError>
        ensures { IfOk result (λ listing. IsScreen (counts_in self.now.image) (reads_in self.now)
            (level_of self.now.path).place listing.lines.items listing.trap) }
    {
        list_entries(alloc, self.image, &self.values, self.level().place)
    }

    fn choose(&mut self, alloc: Global, number: i64) -> Result<Happened, AllocError>
        ensures does { IfOk result (λ happened. Chooses self.old number happened self.new) }
        ensures kept { OnErr result (self.new ≡ self.old) }
    {
        let listing = self.screen(alloc)?;
        let entry = entry_of(listing, number);
        self.open_one(alloc, entry)
    }

    fn at_menu(&mut self, alloc: Global, command: Command) -> Result<Happened, AllocError>
        ensures does { IfOk result (λ happened. AtMenu self.old command happened self.new) }
        ensures kept { OnErr result (self.new ≡ self.old) }
    {
        match command {
            Command::Number(number) => self.choose(alloc, number),
            Command::Back => match self.path.pop() {
                Some(_) => Ok(Happened::Moved),
                None => Ok(Happened::Unknown),
            },
            Command::Enter => Ok(Happened::Shown),
            Command::Abort => Ok(Happened::Unknown),
        }
    }

    /// Takes a command. A method that runs takes it, else the variable that is edited, else the
    /// menu. It fails only for lack of memory.
    pub fn take(&mut self, alloc: Global, command: Command) -> Result<Happened, AllocError>
        ensures happens { IfOk result (λ happened. Happens self.old command happened self.new) }
        ensures kept { OnErr result (self.new ≡ self.old) }
    {
        if let Some(session) = &mut self.session {
            return reply(alloc, self.image, self.language, session, command);
        }
        match self.field {
            Some(field) => self.at_variable(alloc, field, command),
            None => self.at_menu(alloc, command),
        }
    }

    /// Gives the pending request an answer, as of a device.
    ///
    /// The fault is that of the session, and `NotAsking` where no method runs.
    pub fn answer(&mut self, answer: &Answer) -> Result<(), AnswerFault>
        ensures sound { OnOk result (self.new ≡ answered_by self.old (answer_of answer.now)) }
        ensures refused { option_map answer_fault_of (result_err result)
            ≡ answer_refusal self.old (answer_of answer.now) }
        ensures kept { OnErr result (self.new ≡ self.old) }
    {
        match &mut self.session {
            Some(session) => session.answer(answer),
            None => Err(AnswerFault::NotAsking),
        }
    }

    /// Executes at most so many instructions of the method that runs, and answers where it is then.
    /// Where it is over, its values are those of the device.
    pub fn advance(&mut self, budget: u32) -> Option<Turn>
        ensures { Advances budget self.old result self.new }
    {
        let Some(mut session) = self.session.take() else {
            return None;
        };
        let turn = session.advance(budget);
        match turn {
            Turn::Asks(_) | Turn::Spent => self.session = Some(session),
            Turn::Ended | Turn::Aborted | Turn::Trapped(_) => {
                keep(&mut self.values, values_in(&session));
            }
        }
        Some(turn)
    }

    /// The variable that is open, if one is.
    pub fn field(&self) -> Option<Field>
        ensures { result ≡ self.now.field }
    {
        self.field
    }

    /// The image.
    pub fn image(&self) -> &'i Image<'b>
        ensures { result.now ≡ self.now.image }
    {
        self.image
    }

    /// The code of the language in which texts are shown.
    pub fn language(&self) -> &'i str {
        self.language
    }
}
