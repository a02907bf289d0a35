//! The book that a case works on.
use crate::foldings::folds_again;
use crate::running::{Claimed, Running};
use crate::store::{Store, spoiled, store_at};
use crate::versions::{first_refused, may_stand, refused_in};
use bosh_base::{Answer, Entry};
use bosh_book::{Book, Permit};
use bosh_book_texts::{Told, push_entries, push_permit};
use bosh_case_texts::push_count;
use bosh_cases::{CaseFault, Outcome, push_parts};
use bosh_cloud::SimCloud;
use bosh_ports::MemKeeper;
use bosh_yaml::Node;
use itoa::Buffer;
use std::alloc::Global;

/// How many calls a task may make that is run to its end.
const MOST_CALLS: usize = 10_000;

/// A book, a cloud that answers calls, and what was answered so far. There is no book after a load that was refused.
pub(crate) struct Stand {
    alloc: Global,
    running: Option<Running>,
    cloud: Option<SimCloud<MemKeeper>>,
    told: Vec<u8>,
}

impl Stand {
    pub(crate) fn new(alloc: Global) -> Stand {
        Stand {
            alloc,
            running: Running::new(alloc),
            cloud: SimCloud::load(alloc, MemKeeper::new(alloc)).ok(),
            told: Vec::new(alloc),
        }
    }

    pub(crate) fn alloc(&self) -> Global {
        self.alloc
    }

    fn running(&mut self) -> Result<&mut Running, CaseFault> {
        match &mut self.running {
            Some(running) => Ok(running),
            None => Err(CaseFault::Form),
        }
    }

    pub(crate) fn book(&mut self) -> Result<&mut Book<Store>, CaseFault> {
        Ok(&mut self.running()?.book)
    }

    // The text, for one more answer.
    fn part(&mut self) -> Result<&mut Vec<u8>, CaseFault> {
        if !self.told.is_empty() {
            self.told.extend_from_slice(b"; ")?;
        }
        Ok(&mut self.told)
    }

    /// Tells a word.
    pub(crate) fn tell(&mut self, word: &str) -> Result<(), CaseFault> {
        Ok(push_parts(self.part()?, &[word.as_bytes()])?)
    }

    /// Tells a word and a number.
    pub(crate) fn tell_number(&mut self, word: &str, number: u64) -> Result<(), CaseFault> {
        let mut buffer = Buffer::new();
        let number = buffer.format(number);
        Ok(push_parts(self.part()?, &[word.as_bytes(), b" ", number.as_bytes()])?)
    }

    // Generic, as all that tell answers are: to let a refusal go, which has many kinds, is dear to prove.
    fn tell_value<T: Told>(&mut self, value: T) -> Result<(), CaseFault> {
        value.push_to(self.part()?)
    }

    // Tells a refusal, which ends the work.
    fn stop_at<E: Told>(&mut self, fault: E) -> Result<bool, CaseFault> {
        fault.push_to(self.part()?)?;
        Ok(false)
    }

    /// Tells what was answered.
    pub(crate) fn tell_answer<V: Told, E: Told>(
        &mut self,
        answer: Result<V, E>,
    ) -> Result<(), CaseFault> {
        match answer {
            Ok(value) => self.tell_value(value),
            Err(fault) => self.tell_value(fault),
        }
    }

    // How many tasks the last start ended.
    fn tell_mended(&mut self) -> Result<(), CaseFault> {
        match self.book()?.mended() {
            Some(count) => self.tell_number("mended", count),
            None => self.tell("none mended"),
        }
    }

    /// Claims work, and tells what was given.
    pub(crate) fn claim(&mut self, task: u64, worker: u8) -> Result<(), CaseFault> {
        match self.running()?.claim(task, worker) {
            Ok(Claimed::Work(n)) => self.tell_permit(n),
            Ok(Claimed::Wait) => self.tell("wait"),
            Ok(Claimed::Over) => self.tell("over"),
            Err(fault) => self.tell_value(fault),
        }
    }

    fn tell_permit(&mut self, n: u64) -> Result<(), CaseFault> {
        let mut text = Vec::new(self.alloc);
        match self.running()?.permit(n) {
            Some(permit) => push_permit(&mut text, permit)?,
            None => return Err(CaseFault::Form),
        }
        Ok(push_parts(self.part()?, &[text.as_slice()])?)
    }

    /// Ends a call with an answer.
    pub(crate) fn settle(&mut self, n: u64, answer: Answer) -> Result<(), CaseFault> {
        let done = self.running()?.settle(n, answer)?;
        self.tell_answer(done)
    }

    /// Gives a call up.
    pub(crate) fn abandon(&mut self, n: u64) -> Result<(), CaseFault> {
        self.running()?.abandon(n)?;
        self.tell("ok")
    }

    // What the cloud answers to the call of a permit.
    fn performed(&mut self, n: u64) -> Result<Answer, CaseFault> {
        let (Some(running), Some(cloud)) = (&self.running, &mut self.cloud) else {
            return Err(CaseFault::Form);
        };
        match running.permit(n) {
            Some(permit) => answered(cloud, permit),
            None => Err(CaseFault::Form),
        }
    }

    /// Has the cloud answer a call, and ends it so.
    pub(crate) fn carry_out(&mut self, n: u64) -> Result<(), CaseFault> {
        let answer = self.performed(n)?;
        match self.running()?.settle(n, answer)? {
            Ok(()) => Ok(()),
            Err(fault) => self.tell_value(fault),
        }
    }

    /// Ends a task, and tells how it ended.
    pub(crate) fn end(&mut self, task: u64) -> Result<(), CaseFault> {
        let end = self.book()?.end_task(task);
        self.tell_answer(end)
    }

    // Claims work and has it carried out. Where there is none, that is so.
    fn work(&mut self, task: u64) -> Result<bool, CaseFault> {
        match self.running()?.claim(task, 0) {
            Ok(Claimed::Work(n)) => {
                self.carry_out(n)?;
                Ok(true)
            }
            Ok(_) => Ok(false),
            Err(fault) => self.stop_at(fault),
        }
    }

    /// Carries a task out to its end, or until nothing can be done, and ends it.
    pub(crate) fn run(&mut self, task: u64) -> Result<(), CaseFault> {
        for _ in 0..MOST_CALLS {
            if !self.work(task)? {
                break;
            }
        }
        self.end(task)
    }

    /// Reloads the book.
    pub(crate) fn reload(&mut self) -> Result<(), CaseFault> {
        let done = self.book()?.reload();
        self.tell_answer(done)?;
        self.tell_mended()
    }

    // The state of the machine of a call's instance, which has the spec that is wanted of it.
    pub(crate) fn facts(
        &mut self,
        n: u64,
        running: bool,
        drained: bool,
    ) -> Result<Answer, CaseFault> {
        let alloc = self.alloc;
        let spec = self.running()?.wanted(alloc, n)?;
        Ok(Answer::Facts {
            spec: Some(spec),
            running,
            drained,
        })
    }

    fn take_store(&mut self) -> Result<Store, CaseFault> {
        match self.running.take() {
            Some(running) => Ok(running.into_store()),
            None => Err(CaseFault::Form),
        }
    }

    /// Loads the book anew from its store. Permits are given up.
    pub(crate) fn load(&mut self) -> Result<(), CaseFault> {
        let store = self.take_store()?;
        self.load_from(store)
    }

    /// Loads the book from its store, in which a body is damaged.
    pub(crate) fn spoil(&mut self, place: u64) -> Result<(), CaseFault> {
        let store = self.take_store()?;
        let store = spoiled(self.alloc, store, place)?;
        self.load_from(store)
    }

    // Goes on with a book.
    fn set(&mut self, book: Book<Store>) {
        match self.running.replace(Running::of(book)) {
            Some(old) => drop(old.into_store()),
            None => {}
        }
    }

    fn load_from(&mut self, store: Store) -> Result<(), CaseFault> {
        match loaded(Book::load(self.alloc, store)) {
            Ok(book) => {
                self.set(book);
                self.tell_mended()
            }
            Err(fault) => self.tell_value(fault),
        }
    }

    /// Loads the book from a new store, in which nothing is recorded but the number of the last call.
    pub(crate) fn begin_at(&mut self, last_call: u64) -> Result<(), CaseFault> {
        let store = store_at(self.alloc, last_call)?;
        self.load_from(store)
    }

    /// Whether an entry may stand after those of the book.
    pub(crate) fn ask(&mut self, entry: &Entry) -> Result<(), CaseFault> {
        let alloc = self.alloc;
        if may_stand(alloc, self.book()?.records(), entry)? {
            self.tell("allowed")
        } else {
            self.tell("refused")
        }
    }

    /// Whether each entry of a list may stand after those before it, or the number of the first that may not.
    pub(crate) fn ask_version(&mut self, parts: &[Node]) -> Result<(), CaseFault> {
        let alloc = self.alloc;
        match refused_in(alloc, self.book()?, parts)? {
            None => self.tell("allowed"),
            Some(number) => self.tell_number("refused", number),
        }
    }

    /// Whether the records of the book come out of a snapshot of themselves as they are.
    pub(crate) fn fold_again(&mut self) -> Result<(), CaseFault> {
        let alloc = self.alloc;
        if folds_again(alloc, self.book()?.records())? {
            self.tell("same records")
        } else {
            self.tell("other records")
        }
    }

    /// What was told, and the entries that there are, one a line.
    pub(crate) fn into_outcome(self, taken: Result<(), CaseFault>) -> Result<Outcome, CaseFault> {
        let Stand {
            alloc,
            running,
            cloud,
            told,
        } = self;
        let outcome = finished(alloc, told, taken, running.as_ref());
        close_book(running);
        close_cloud(cloud);
        outcome
    }
}

fn finished(
    alloc: Global,
    told: Vec<u8>,
    taken: Result<(), CaseFault>,
    running: Option<&Running>,
) -> Result<Outcome, CaseFault> {
    match taken {
        Ok(()) => outcome(alloc, told, running),
        Err(fault) => Err(fault),
    }
}

// A book is taken apart, since to let one go as a whole is dear to prove.
fn close_book(running: Option<Running>) {
    match running {
        Some(running) => drop(running.into_store()),
        None => {}
    }
}

// So is a cloud.
fn close_cloud(cloud: Option<SimCloud<MemKeeper>>) {
    match cloud {
        Some(cloud) => drop(cloud.into_store()),
        None => {}
    }
}

// Without the store, which is given back. Generic, as it is let go.
fn loaded<B, K: Drop, E>(book: Result<B, (K, E)>) -> Result<B, E> {
    match book {
        Ok(book) => Ok(book),
        Err((_store, fault)) => Err(fault),
    }
}

fn answered(cloud: &mut SimCloud<MemKeeper>, permit: &Permit) -> Result<Answer, CaseFault> {
    match cloud.perform(permit.n(), permit.owner(), permit.dep(), permit.call()) {
        Ok(answer) => Ok(answer),
        Err(_) => Err(CaseFault::Memory),
    }
}

fn push_refused(text: &mut Vec<u8>, refused: Option<u64>) -> Result<(), CaseFault> {
    match refused {
        None => push_parts(text, &[b"each allowed"])?,
        Some(number) => push_count(text, b"refused ", number)?,
    }
    text.push(b'\n')?;
    Ok(())
}

// The entries, and whether each may stand after those before it.
fn push_book(alloc: Global, text: &mut Vec<u8>, book: &Book<Store>) -> Result<(), CaseFault> {
    push_entries(text, book.entries())?;
    push_refused(text, first_refused(alloc, book.entries())?)
}

fn outcome(alloc: Global, told: Vec<u8>, running: Option<&Running>) -> Result<Outcome, CaseFault> {
    let mut text = told;
    text.push(b'\n')?;
    if let Some(running) = running {
        push_book(alloc, &mut text, &running.book)?;
    }
    Ok(Outcome::bytes(text))
}
