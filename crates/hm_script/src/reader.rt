// Reading a script line by line.

ghost use Rattle.std.specs.Prelude.{◌≡◌, ◌≤◌, ◌<◌, ◌+◌, length, true, IfOk};
ghost use Rattle.hm_script.specs.Keywords.{is_op};
ghost use Rattle.hm_script.specs.Automaton.{version_named};
ghost use Rattle.hm_base.specs.Program.{run_lines, operation_count};
ghost use Rattle.hm_script.specs.declared.part.Part.TheVariants as Part_is;

use crate::keyword::{Keyword, OpWord};
use crate::line_words::LineWords;
use crate::lines::text_of;
use crate::numeral::number;
use crate::op_line::OpLine;
use crate::part::Part;
use crate::reason::{LineError, Reason};
use crate::words::Words;
use hm_base::{
    Actor, ActorLists, DeviceList, MOST_ACTORS, MOST_DEVICE_FRAMES, MOST_DEVICES, MOST_OPERATIONS,
    MOST_SCHEDULE_LINES, MOST_SYSTEM_FRAMES, OpList, Schedule, ScheduleLine, Script, Version,
};
use std::alloc::Global;

/// The script so far, and the part that has been reached.
#[derive(Drop)]
pub struct Reader {
    pub part: Part,
    pub version: Version,
    pub frames: u32,
    pub devices: DeviceList,
    pub skip: u64,
    pub actors: ActorLists,
    pub schedule: Schedule,
    /// How many operations and how many schedule lines there are.
    operations: u64,
    schedule_lines: u64,
    ghost operations_counted: { operations ≡ operation_count actors },
    ghost lines_counted: { schedule_lines ≡ run_lines schedule },
    ghost few_devices: { length devices ≤ 4 },
    ghost few_actors: { length actors ≤ 16 },
    ghost some_actor: { part ≡ Part_is.Actors → 0 < length actors },
}

/// The version that the first line names.
#[tactic(auto, unfolding(crate::specs::Automaton::version_named))]
fn version_of(text: &[u8], words: &Words) -> Result<Version, Reason>
    ensures { result ≡ version_named words.now text.now }
{
    if text == b"hmm 1".as_slice() {
        return Ok(Version::One);
    }
    if text == b"hmm 2".as_slice() && words.version_two {
        return Ok(Version::Two);
    }
    Err(Reason::Header)
}

impl Reader {
    ghost use Rattle.hm_script.specs.Reader.{state_of, program_of, Moves};
    ghost use Rattle.hm_base.specs.Program.{IsScript};
    ghost use Rattle.hm_script.specs.Automaton.{start, step, permits, keyword_at, next, read_header, read_text};

    pub(crate) fn new(alloc: Global) -> Reader
        ensures { state_of result ≡ start }
    {
        Reader {
            part: Part::Start,
            version: Version::One,
            frames: 0,
            devices: DeviceList::new(alloc),
            skip: 0,
            actors: ActorLists::new(alloc),
            schedule: Schedule::new(alloc),
            operations: 0,
            schedule_lines: 0,
        }
    }

    #[tactic(auto, using(crate::proofs::Counts::counts), unfolding(crate::specs::Automaton::step))]
    fn frames(&mut self, words: &LineWords) -> Result<(), LineError>
        ensures { Moves result (step Keyword.Frames (state_of self.old) words.now) (state_of self.new) }
    {
        words.shape(2)?;
        let frames = number(words.get(1))?;
        if frames > MOST_SYSTEM_FRAMES {
            return Err(LineError::Bad(Reason::Range));
        }
        self.frames = frames as u32;
        self.part = Part::Devices;
        Ok(())
    }

    #[tactic(auto, using(crate::proofs::Counts::counts), unfolding(crate::specs::Automaton::step))]
    fn device(&mut self, words: &LineWords) -> Result<(), LineError>
        ensures { Moves result (step Keyword.Device (state_of self.old) words.now) (state_of self.new) }
    {
        words.shape(3)?;
        let device = number(words.get(1))?;
        let frames = number(words.get(2))?;
        if device != self.devices.len()
            || device >= u64::from(MOST_DEVICES)
            || frames > MOST_DEVICE_FRAMES
        {
            return Err(LineError::Bad(Reason::Range));
        }
        self.devices.push(frames as u32)?;
        self.part = Part::Devices;
        Ok(())
    }

    #[tactic(auto, using(crate::proofs::Counts::counts), unfolding(crate::specs::Automaton::step))]
    fn skip(&mut self, words: &LineWords) -> Result<(), LineError>
        ensures { Moves result (step Keyword.Skip (state_of self.old) words.now) (state_of self.new) }
    {
        words.shape(2)?;
        let skip = number(words.get(1))?;
        if skip < 1 || skip > 1 << 36 {
            return Err(LineError::Bad(Reason::Range));
        }
        self.skip = skip;
        self.part = Part::Skipped;
        Ok(())
    }

    #[tactic(auto, using(crate::proofs::Counts::counts), unfolding(crate::specs::Automaton::step))]
    fn actor(&mut self, alloc: Global, words: &LineWords) -> Result<(), LineError>
        ensures { Moves result (step Keyword.Actor (state_of self.old) words.now) (state_of self.new) }
    {
        words.shape(2)?;
        let actor = number(words.get(1))?;
        if actor != self.actors.len() || actor >= u64::from(MOST_ACTORS) {
            return Err(LineError::Bad(Reason::Range));
        }
        self.actors.push(OpList::new(alloc))?;
        self.part = Part::Actors;
        Ok(())
    }

    #[tactic(auto, using(crate::proofs::Counts::counts), unfolding(crate::specs::Automaton::step))]
    fn turns(&mut self, words: &LineWords) -> Result<(), LineError>
        ensures { Moves result (step Keyword.Turns (state_of self.old) words.now) (state_of self.new) }
    {
        words.shape(3)?;
        let actor = number(words.get(1))?;
        let count = number(words.get(2))?;
        if count < 1 || count > 1_000_000 {
            return Err(LineError::Bad(Reason::Range));
        }
        if actor >= self.actors.len() {
            return Err(LineError::Bad(Reason::Undeclared));
        }
        if self.schedule_lines >= MOST_SCHEDULE_LINES {
            return Err(LineError::Bad(Reason::Limit));
        }
        self.schedule.push(ScheduleLine::Run {
            actor: Actor::new(actor as u32),
            count: count as u32,
        })?;
        self.schedule_lines += 1;
        self.part = Part::Turns;
        Ok(())
    }

    #[tactic(auto, using(crate::proofs::Counts::counts), unfolding(crate::specs::Automaton::step))]
    fn drain(&mut self, words: &LineWords) -> Result<(), LineError>
        ensures { Moves result (step Keyword.Drain (state_of self.old) words.now) (state_of self.new) }
    {
        words.shape(1)?;
        self.schedule.push(ScheduleLine::Drain)?;
        self.part = Part::Drained;
        Ok(())
    }

    #[tactic(auto, using(crate::proofs::Counts::counts), unfolding(crate::specs::Automaton::step))]
    fn operation(&mut self, alloc: Global, op: OpWord, words: LineWords) -> Result<(), LineError>
        requires { self.old.part ≡ Part.Actors }
        ensures { Moves result (step (Keyword.Op op) (state_of self.old) words.entry) (state_of self.new) }
    {
        let line = OpLine {
            words,
            devices: self.devices.len() as u32,
        };
        let op = line.read(alloc, op)?;
        if self.operations >= MOST_OPERATIONS {
            return Err(LineError::Bad(Reason::Limit));
        }
        self.actors.push_to_last(op)?;
        self.operations += 1;
        Ok(())
    }

    #[tactic(auto, unfolding(crate::specs::Automaton::read_header))]
    fn header(&mut self, text: &[u8], words: &Words) -> Result<(), LineError>
        ensures { Moves result (read_header words.now (state_of self.old) text.now) (state_of self.new) }
    {
        self.version = version_of(text, words)?;
        self.part = Part::Headed;
        Ok(())
    }

    /// Whether the set has the word, and the script so far may have one more such line.
    fn permits(&self, keyword: Keyword, words: &Words) -> bool
        ensures { result ≡ permits words.now (program_of self.now) keyword }
    {
        match keyword {
            Keyword::Skip => words.skip,
            Keyword::Actor => words.several_actors || self.actors.len() == 0,
            Keyword::Turns => words.several_turns || self.schedule_lines == 0,
            Keyword::Drain => words.drain,
            Keyword::Op(op) => words.has(op) && (self.version == Version::Two || !op.is_new()),
            Keyword::Frames | Keyword::Device => true,
        }
    }

    /// The keyword of a line that comes next.
    #[tactic(auto, using(crate::proofs::Counts::op_part), unfolding(crate::specs::Automaton::keyword_at))]
    fn keyword(&self, word: &[u8], words: &Words) -> Result<Keyword, Reason>
        ensures gives { result ≡ keyword_at words.now (state_of self.now) word.now }
        ensures operation { IfOk result (λ k. is_op k ≡ true → self.now.part ≡ Part.Actors) }
    {
        let Some(keyword) = Keyword::named(word) else {
            return Err(Reason::Word);
        };
        if !self.part.allows(keyword) || !self.permits(keyword, words) {
            return Err(Reason::Word);
        }
        Ok(keyword)
    }

    #[tactic(auto, unfolding(crate::specs::Automaton::read_text))]
    fn body(&mut self, alloc: Global, text: &[u8], words: &Words) -> Result<(), LineError>
        ensures { Moves result (read_text words.now (state_of self.old) text.now) (state_of self.new) }
    {
        let line = LineWords::of(text);
        match self.keyword(line.get(0), words)? {
            Keyword::Frames => self.frames(&line),
            Keyword::Device => self.device(&line),
            Keyword::Skip => self.skip(&line),
            Keyword::Actor => self.actor(alloc, &line),
            Keyword::Turns => self.turns(&line),
            Keyword::Drain => self.drain(&line),
            Keyword::Op(op) => self.operation(alloc, op, line),
        }
    }

    /// Reads the next line.
    #[tactic(auto, unfolding(crate::specs::Automaton::next))]
    pub(crate) fn line(
        &mut self,
        alloc: Global,
        line: &[u8],
        words: &Words,
    ) -> Result<(), LineError>
        requires { 0 < length line.now }
        ensures { Moves result (next words.now (state_of self.old) line.now) (state_of self.new) }
    {
        let text = text_of(line)?;
        match self.part {
            Part::Start => self.header(text, words),
            _ => self.body(alloc, text, words),
        }
    }

    /// The script that was read.
    pub(crate) fn into_script(self) -> Script
        requires { IsScript (program_of self) }
        ensures { result ≡ program_of self }
    {
        let Reader {
            part: _,
            version,
            frames,
            devices,
            skip,
            actors,
            schedule,
            operations: _,
            schedule_lines: _,
        } = self;
        Script {
            version,
            frames,
            devices,
            skip,
            actors,
            schedule,
        }
    }
}
