//! A book, and the permits that it gave.
use crate::store::{Store, new_store};
use bosh_base::{Answer, Copyable, Owner, Spec};
use bosh_book::{Book, BookFault, Claim, Permit};
use bosh_book_words::Places;
use bosh_cases::CaseFault;
use std::alloc::Global;

/// A book over its store, with the permits that were given and not spent.
pub(crate) struct Running {
    pub(crate) book: Book<Store>,
    permits: Places<Permit>,
}

/// What a claim was answered; the permit is kept.
#[derive(Clone, Copy, Debug, PartialEq, Eq)]
pub(crate) enum Claimed {
    Work(u64),
    Wait,
    Over,
}

impl Running {
    /// The book of a new store.
    pub(crate) fn new(alloc: Global) -> Option<Running> {
        match Book::load(alloc, new_store(alloc)).ok() {
            Some(book) => Some(Running::of(book)),
            None => None,
        }
    }

    pub(crate) fn of(book: Book<Store>) -> Running {
        Running {
            book,
            permits: Places::none(),
        }
    }

    /// The permit of a call.
    pub(crate) fn permit(&self, n: u64) -> Option<&Permit> {
        self.permits.get(n)
    }

    /// The spec that is wanted of the instance that a call is for.
    pub(crate) fn wanted(&self, alloc: Global, n: u64) -> Result<Spec, CaseFault> {
        let inst = match self.permit(n).map(Permit::owner) {
            Some(Owner::Instance(inst)) => inst,
            _ => return Err(CaseFault::Form),
        };
        match self.book.records().want_of(inst) {
            Some(want) => Ok(want.spec.copy(alloc)?),
            None => Err(CaseFault::Form),
        }
    }

    /// Claims work of a task, and keeps the permit.
    pub(crate) fn claim(&mut self, task: u64, worker: u8) -> Result<Claimed, BookFault> {
        match self.book.claim(task, worker)? {
            Claim::Work(permit) => self.keep(permit),
            Claim::Wait => Ok(Claimed::Wait),
            Claim::Over => Ok(Claimed::Over),
        }
    }

    // A permit for which there is no place is given up.
    fn keep(&mut self, permit: Permit) -> Result<Claimed, BookFault> {
        let n = permit.n();
        match self.permits.keep(n, permit) {
            Ok(()) => Ok(Claimed::Work(n)),
            Err(permit) => {
                self.book.abandon(permit);
                Err(BookFault::Memory)
            }
        }
    }

    /// Ends the call of a permit. Where that is refused the permit is kept.
    pub(crate) fn settle(
        &mut self,
        n: u64,
        answer: Answer,
    ) -> Result<Result<(), BookFault>, CaseFault> {
        let Some(permit) = self.permits.take(n) else {
            return Err(CaseFault::Form);
        };
        match self.book.settle(permit, answer) {
            Ok(()) => Ok(Ok(())),
            Err((permit, answer, fault)) => Ok(self.keep_after(n, permit, answer, fault)),
        }
    }

    // Generic, since an answer and a refusal that are let go are dear to prove.
    fn keep_after<A: Drop, E>(
        &mut self,
        n: u64,
        permit: Permit,
        _answer: A,
        fault: E,
    ) -> Result<(), E> {
        match self.permits.keep(n, permit) {
            Ok(()) => {}
            Err(permit) => self.book.abandon(permit),
        }
        Err(fault)
    }

    /// Gives the call of a permit up.
    pub(crate) fn abandon(&mut self, n: u64) -> Result<(), CaseFault> {
        let Some(permit) = self.permits.take(n) else {
            return Err(CaseFault::Form);
        };
        self.book.abandon(permit);
        Ok(())
    }

    /// The book, once each permit is given up.
    pub(crate) fn into_book(self) -> Book<Store> {
        let Running { book, permits } = self;
        let mut book = book;
        let (first, second, third) = permits.into_all();
        give_up(&mut book, first);
        give_up(&mut book, second);
        give_up(&mut book, third);
        book
    }

    /// The store of the book, once each permit is given up.
    pub(crate) fn into_store(self) -> Store {
        self.into_book().into_store()
    }
}

fn give_up(book: &mut Book<Store>, permit: Option<Permit>) {
    match permit {
        Some(permit) => book.abandon(permit),
        None => {}
    }
}
