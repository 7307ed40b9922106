// Support for the replay programs: the oracle's vectors are read from standard input, a word of eight bytes at a
// time, and answers are counted. No contract can speak of what is read or printed: a function that reads promises what
// it does after a read that failed, and one that reads a list its length, and that the places behind it stay.
// Questions, kinds and calls stay the oracle's numbers, in the programs too: tools/oracle/README.md has them, and an enum
// would be made from them by one more match, or turned back into the place of its counts. Lists stand in arrays of a fixed
// size, there being no heap: what does not fit is cut off, or not asked. Most functions that read say `Ended`,
// each for itself, since what a call leaves is no invariant of a type.
#![tactic(auto)]

ghost use Rattle.std.specs.Prelude.{◌≡◌, ◌<◌, ◌≤◌, Bool, false, IsErr, IsSome, IsTrue, MatchOption};
ghost use Rattle.vectors.specs.Ended.{Ended};
ghost use Rattle.vectors.specs.Made.{Made};
ghost use Rattle.vectors.specs.Tally.{unmarked_of, known_of, one_more, none_asked, begun_with, counted_in, Counted};

use places::Answer;
use std::io::{ErrorKind, Print, Read, Stdin, Write};
use std::{fmt, io};
use wire::f64_to_bits;

// Standard input. It ends where a read fails; that error is kept for the end of the program, and what was counted is
// printed first. (So there is no `?`: each number that is read would need one.)
#[derive(Drop)]
pub struct Input {
    stdin: Stdin,
    pub failed: Option<io::Error>,
}

impl Input {
    pub fn new(stdin: Stdin) -> Self
        ensures { result.failed ≡ None }
    {
        Self {
            stdin,
            failed: None,
        }
    }

    // Fills these bytes, and answers whether the input has as many. After a read that failed nothing is read.
    pub fn fill(&mut self, bytes: &mut [u8]) -> bool
        ensures ended { IsSome self.old.failed → (result ≡ false) × (self.new ≡ self.old) × (bytes.new ≡ bytes.old) }
        ensures filled { IsTrue result → self.new.failed ≡ None }
    {
        if self.failed.is_some() {
            return false;
        }
        match self.stdin.read_exact(bytes) {
            Ok(()) => true,
            Err(e) => {
                if e.kind() != ErrorKind::UnexpectedEof {
                    self.failed = Some(e);
                }
                false
            }
        }
    }

    // The next word: `None` past the end.
    pub fn next(&mut self) -> Option<u64>
        ensures { IsSome self.old.failed → (result ≡ None) × (self.new ≡ self.old) }
    {
        let mut bytes = [0; 8];
        self.fill(&mut bytes).then(|| u64::from_le_bytes(bytes))
    }

    // The next word, and 0 past the end.
    pub fn number(&mut self) -> u64
        ensures { IsSome self.old.failed → (result ≡ 0) × (self.new ≡ self.old) }
    {
        self.next().unwrap_or(0)
    }

    // The f64 whose bits are the next word.
    pub fn float(&mut self) -> f64
        ensures { Ended self.old self.new }
    {
        wire::f64_from_bits(self.number())
    }

    // The next N floats. (Not by `array::from_fn`: its contract does not say what the closure's last call leaves of `self`.)
    pub fn array<const N: usize>(&mut self) -> [f64; N]
        ensures { Ended self.old self.new }
    {
        let mut floats = [0.0; N];
        for place in floats.iter_mut() {
            *place = self.float();
        }
        floats
    }

    // Makes a list of `count` floats that are read, with `pad` copies of the first of them before it, and answers its
    // length: 0 where `count` is 0. A list that does not fit is cut off. No part of the list is lent as the answer: a
    // clause could not speak of the places behind it then.
    #[tactic(auto, unfolding(crate::specs::Made::made_length))]
    pub fn padded(&mut self, list: &mut [f64], pad: u64, count: u64) -> usize
        ensures ended { Ended self.old self.new }
        ensures made { Made pad count list.old list.new result }
    {
        if count == 0 {
            return 0;
        }
        let made = list.len().min(pad.wrapping_add(count) as usize);
        let first = self.float();
        for (i, place) in list[..made].iter_mut().enumerate() {
            *place = if i as u64 <= pad { first } else { self.float() };
        }
        made
    }

    // Fills the first `count` places of a list.
    pub fn floats(&mut self, list: &mut [f64], count: u64) -> usize
        ensures ended { Ended self.old self.new }
        ensures made { Made 0 count list.old list.new result }
    {
        self.padded(list, 0, count)
    }

    // Passes over so many words.
    pub fn skip(&mut self, words: usize)
        ensures { Ended self.old self.new }
    {
        for _ in 0..words {
            self.number();
        }
    }

    // Whether the next words are these. As many are read. (`all` would stop at the first that differs.)
    pub fn next_are(&mut self, words: &[u64]) -> bool
        ensures { Ended self.old self.new }
    {
        let mut same = true;
        for word in words {
            same &= self.number() == *word;
        }
        same
    }

    // The error of a read that failed, if one did.
    pub fn end(self) -> io::Result<()>
        ensures { MatchOption self.failed (result ≡ Ok tt) (λ e. result ≡ Err e) }
    {
        match self.failed {
            Some(e) => Err(e),
            None => Ok(()),
        }
    }
}

// The first word of a case without the mark, 128, that its answers are wrong on purpose.
#[tactic(auto, unfolding(crate::specs::Tally::unmarked_of, crate::specs::Tally::marked_at))]
pub fn unmarked(head: u64) -> u64
    ensures { result ≡ unmarked_of head }
{
    head.checked_sub(128).unwrap_or(head)
}

// A question from 16 on counts as question 0, which is none.
#[tactic(auto, unfolding(crate::specs::Tally::known_of))]
fn known(question: u64) -> usize
    ensures is { result ≡ known_of question }
    ensures small { result < 16 }
{
    if question < 16 { question as usize } else { 0 }
}

// How many answers to a question were compared, and how many of them differ.
#[derive(Clone, Copy, Default)]
pub struct Count {
    pub asked: u64,
    pub differ: u64,
}

impl Count {
    // One answer more.
    #[tactic(auto, unfolding(crate::specs::Tally::one_more))]
    fn add(&mut self, right: bool)
        ensures { self.new ≡ one_more self.old right }
    {
        self.asked = self.asked.wrapping_add(1);
        if !right {
            self.differ = self.differ.wrapping_add(1);
        }
    }
}

// The counts of each question, of cases that are right and of those that are wrong on purpose. `is_wrong` says which the
// present case is. (Two fields: an array of two would be indexed by the flag made a number.)
#[derive(Clone, Copy)]
pub struct Tally {
    pub right: [Count; 16],
    pub wrong: [Count; 16],
    pub is_wrong: bool,
}

impl Tally {
    #[tactic(auto, unfolding(crate::specs::Tally::none_asked))]
    pub fn new() -> Self
        ensures { result ≡ none_asked }
    {
        Self {
            right: [Count::default(); 16],
            wrong: [Count::default(); 16],
            is_wrong: false,
        }
    }

    // A case begins, with this word.
    #[tactic(auto, unfolding(crate::specs::Tally::begun_with, crate::specs::Tally::marked_at))]
    pub fn begin(&mut self, head: u64)
        ensures { self.new ≡ begun_with self.old head }
    {
        self.is_wrong = 128 <= head;
    }

    // One answer more.
    #[tactic(auto, unfolding(crate::specs::Tally::counted_in, crate::specs::Tally::one_more_at))]
    pub fn count(&mut self, question: u64, right: bool)
        ensures { self.new ≡ counted_in self.old question right }
    {
        let question = known(question);
        if self.is_wrong {
            self.wrong[question].add(right);
        } else {
            self.right[question].add(right);
        }
    }

    // The line at a question's place: how often it was asked, and how many answers differ; how many answers are wrong on
    // purpose, and whether all of these were found to differ. From place 16 on there is none.
    pub fn line_at(&self, rt: &impl Print, question: usize, name: &[u8]) -> io::Result<()>
        ensures { 16 ≤ question → result ≡ Ok tt }
    {
        if question < 16 {
            let Count { asked, differ } = self.right[question];
            let found = Found(self.wrong[question]);
            io::writer(rt).write_all(name)?;
            println!(rt; ": {asked} asked, {differ} differ; {found}")?;
        }
        Ok(())
    }

    // The line of a question. One from 16 on counts as question 0, and has its line.
    pub fn line(&self, rt: &impl Print, question: u64, name: &str) -> io::Result<()> {
        self.line_at(rt, known(question), name.as_bytes())
    }
}

// Of the answers that are wrong on purpose, how many were found.
#[derive(Clone, Copy)]
struct Found(Count);

impl fmt::Display for Found {
    fn fmt<W: fmt::Write>(&self, f: &mut fmt::Formatter<W>) -> fmt::Result {
        let Count { asked, differ } = self.0;
        if differ == asked {
            write!(f, "{asked} wrong on purpose, all found")
        } else {
            write!(f, "{differ} of {asked} wrong on purpose found")
        }
    }
}

// Cases that are read, and the counts of their answers. (A program makes one, runs it and ends it: one function in
// place of the three would be passed all that they are, and could promise nothing.)
#[derive(Drop)]
pub struct Replay {
    pub input: Input,
    pub tally: Tally,
}

impl Replay {
    pub fn new(stdin: Stdin) -> Self
        ensures { (result.input.failed ≡ None) × (result.tally ≡ none_asked) }
    {
        Self {
            input: Input::new(stdin),
            tally: Tally::new(),
        }
    }

    // Reads the first word of each case. `answer` is passed it without its mark, reads the rest of the case and counts
    // its answers. A proved loop ends, and nothing says that the input does: at most a million cases are read, more than
    // any file has. After a read that failed nothing is read, and nothing is counted.
    pub fn run<F: FnMut(&mut Replay, u64)>(&mut self, mut answer: F)
        requires { F.IsAlwaysCallable answer }
        ensures { IsSome self.old.input.failed → self.new ≡ self.old }
    {
        for _ in 0..1000000 {
            let Some(head) = self.input.next() else {
                return;
            };
            self.tally.begin(head);
            answer(self, unmarked(head));
        }
    }

    // Reads three lists as `padded` does, each cut off at 5000 floats, and passes them on. Their lengths come first, that
    // of the third only where it has one, and the number of copies before them. Nothing is counted but by the call. (A
    // third list that is not there is empty: as an option each program would take it apart, for one kind that has none.)
    pub fn lists<F: FnOnce(&mut Replay, &[f64], &[f64], &[f64])>(
        &mut self,
        has_third: bool,
        answer: F,
    )
        requires { F.IsAlwaysCallable answer }
        ensures { (x : _) × (a : _) × (b : _) × (c : _) × (y : _) × (x.now.tally ≡ self.old.tally) × F.post answer x a b c tt y × (y.now ≡ self.new) }
    {
        let input = &mut self.input;
        let na = input.number();
        let nb = input.number();
        let nc = if has_third { input.number() } else { 0 };
        let pad = input.number();
        let mut a = [0.0; 5000];
        let mut b = [0.0; 5000];
        let mut c = [0.0; 5000];
        let i = input.padded(&mut a, pad, na);
        let j = input.padded(&mut b, pad, nb);
        let k = input.padded(&mut c, pad, nc);
        answer(self, &a[..i], &b[..j], &c[..k]);
    }

    // Counts an answer, given as the words that the oracle writes for it: it is right where they are the next.
    pub fn compare(&mut self, question: u64, words: &[u64])
        ensures ended { Ended self.old.input self.new.input }
        ensures counted { Counted self.old.tally question self.new.tally }
    {
        let right = self.input.next_are(words);
        self.tally.count(question, right);
    }

    // Counts an answer with one value: the oracle writes its number, and the bits of its value, or of 0.0 where it has none.
    pub fn compare_value<A: Answer<Place = f64>>(&mut self, question: u64, answer: A)
        ensures ended { Ended self.old.input self.new.input }
        ensures counted { Counted self.old.tally question self.new.tally }
    {
        let mut value = 0.0;
        let number = answer.put(&mut value);
        self.compare(question, &[number as u64, f64_to_bits(value)]);
    }

    // Counts an answer with two values, as one with one. (Each is three lines, of which two name the place: one function of both
    // would need a trait of places, and be no shorter.)
    pub fn compare_pair<A: Answer<Place = [f64; 2]>>(&mut self, question: u64, answer: A)
        ensures ended { Ended self.old.input self.new.input }
        ensures counted { Counted self.old.tally question self.new.tally }
    {
        let mut pair = [0.0, 0.0];
        let number = answer.put(&mut pair);
        self.compare(
            question,
            &[number as u64, f64_to_bits(pair[0]), f64_to_bits(pair[1])],
        );
    }

    // Counts what asks nothing.
    pub fn no_question(&mut self)
        ensures { (self.new.input ≡ self.old.input) × (self.new.tally ≡ counted_in self.old.tally 0 false) }
    {
        self.tally.count(0, false);
    }

    // Prints a line for each of these questions, with its name. Then the error of a read that failed, if one did.
    pub fn end(self, rt: &impl Print, questions: &[(u64, &str)]) -> io::Result<()>
        ensures { IsSome self.input.failed → IsErr result }
    {
        for (question, name) in questions {
            self.tally.line_at(rt, *question as usize, name.as_bytes())?;
        }
        self.input.end()
    }
}
