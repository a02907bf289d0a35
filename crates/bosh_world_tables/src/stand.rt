//! The site that a case works on.
use crate::told::{Before, Truth};
use bosh_base::Inst;
use bosh_book_texts::{Told, push_answer, push_permit};
use bosh_cases::{CaseFault, push_parts};
use bosh_crew::drive;
use bosh_ports::Rig;
use bosh_running_sites::{
    Claimed, Harm, MemSite, Running, do_harm, harmed, load, new_site, rig, work,
};
use bosh_site_words::{Numbers, Refused, There, is_counted, push_armed, push_moves, push_there};
use bosh_world::{SiteFault, Trap};
use std::alloc::Global;

/// A site, the text of what was answered so far, and how many moves it tells. There is no site after a load that was
/// refused.
pub(crate) struct Stand {
    alloc: Global,
    running: Option<Running>,
    told: Vec<u8>,
    moves: usize,
}

/// What comes of work on a new site. Generic, since what comes is let go by its caller.
pub(crate) fn on_stand<T: Drop, F: FnOnce(&mut Stand) -> Result<T, CaseFault> + Drop>(
    alloc: Global,
    work: F,
) -> Result<T, CaseFault>
    requires { F.IsAlwaysCallable work }
{
    let mut stand = Stand::new(alloc);
    let done = work(&mut stand);
    stand.end();
    done
}

impl Stand {
    fn new(alloc: Global) -> Stand {
        Stand {
            alloc,
            running: new_running(alloc),
            told: Vec::new(alloc),
            moves: 0,
        }
    }

    // Each call is given up.
    fn end(self) {
        let Stand {
            alloc: _,
            running,
            told: _told,
            moves: _,
        } = self;
        match running {
            Some(running) => running.close(),
            None => {}
        }
    }

    pub(crate) fn alloc(&self) -> Global {
        self.alloc
    }

    fn running(&mut self) -> Result<&mut Running, CaseFault> {
        match &mut self.running {
            Some(running) => Ok(running),
            None => Err(CaseFault::Form),
        }
    }

    pub(crate) fn site(&mut self) -> Result<&mut MemSite, CaseFault> {
        Ok(&mut self.running()?.site)
    }

    /// What was told.
    pub(crate) fn told(&self) -> Result<Vec<u8>, CaseFault> {
        Ok(Vec::from_slice(self.alloc, self.told.as_slice())?)
    }

    pub(crate) fn tell(&mut self, word: &str) -> Result<(), CaseFault> {
        Ok(push_parts(&mut self.told, &[word.as_bytes()])?)
    }

    // Generic, as all that tell answers are: to let a refusal go, which has many kinds, is dear to prove.
    fn tell_value<T: Told>(&mut self, value: T) -> Result<(), CaseFault> {
        value.push_to(&mut self.told)
    }

    /// Tells what was answered.
    pub(crate) fn tell_answer<V: Told>(
        &mut self,
        answer: Result<V, SiteFault>,
    ) -> Result<(), CaseFault> {
        match answer {
            Ok(value) => self.tell_value(value),
            Err(fault) => self.tell_value(Refused(fault)),
        }
    }

    /// Ends the line of a step: tells the moves that were not told yet.
    pub(crate) fn tell_moves(&mut self) -> Result<(), CaseFault> {
        if let Some(running) = &self.running {
            let moves = running.site.moves();
            if let Some(rest) = moves.get(self.moves..) {
                push_moves(self.alloc, &mut self.told, rest)?;
            }
            self.moves = moves.len();
        }
        Ok(push_parts(&mut self.told, &[b"\n"])?)
    }

    /// Claims work, and tells what was given.
    pub(crate) fn claim(&mut self, task: u64, worker: u8) -> Result<(), CaseFault> {
        match self.running()?.claim(task, worker) {
            Ok(Claimed::Work(n)) => self.tell_permit(n),
            Ok(Claimed::Wait) => self.tell("wait"),
            Ok(Claimed::Over) => self.tell("over"),
            Err(fault) => self.tell_value(Refused(fault)),
        }
    }

    fn tell_permit(&mut self, n: u64) -> Result<(), CaseFault> {
        let Some(running) = &self.running else {
            return Err(CaseFault::Form);
        };
        match running.permit(n) {
            Some(permit) => Ok(push_permit(&mut self.told, permit)?),
            None => Err(CaseFault::Form),
        }
    }

    /// Performs a call, and tells its answer.
    pub(crate) fn perform(&mut self, n: u64) -> Result<(), CaseFault> {
        match self.running()?.perform(n)? {
            Ok(()) => self.tell_held(n),
            Err(fault) => self.tell_value(Refused(fault)),
        }
    }

    fn tell_held(&mut self, n: u64) -> Result<(), CaseFault> {
        let Some(running) = &self.running else {
            return Err(CaseFault::Form);
        };
        match running.held(n) {
            Some(call) => Ok(push_answer(&mut self.told, call.answer())?),
            None => Err(CaseFault::Form),
        }
    }

    /// Ends a call.
    pub(crate) fn settle(&mut self, n: u64) -> Result<(), CaseFault> {
        let done = self.running()?.settle(n)?;
        self.tell_answer(done)
    }

    /// Gives a call up.
    pub(crate) fn abandon(&mut self, n: u64) -> Result<(), CaseFault> {
        self.running()?.abandon(n)?;
        self.tell("ok")
    }

    /// Whether a call is open and can be performed, or was performed and can be ended.
    pub(crate) fn tell_is_current(&mut self, n: u64) -> Result<(), CaseFault> {
        let is_open = self.running()?.is_open(n);
        self.tell_value(Truth(is_open))
    }

    /// Carries tasks to their ends, and tells how that went.
    pub(crate) fn drive(&mut self, tasks: &[u64]) -> Result<(), CaseFault> {
        let done = drive(self.site()?, tasks);
        self.tell_answer(done)
    }

    /// The same by workers that take turns.
    pub(crate) fn work(&mut self, tasks: &[u64], workers: u8) -> Result<(), CaseFault> {
        let alloc = self.alloc;
        let done = work(alloc, self.running()?, tasks, workers);
        self.tell_answer(done)
    }

    /// Sets a trap.
    pub(crate) fn arm(&mut self, trap: Trap) -> Result<(), CaseFault> {
        let done = arm(self.site()?, trap)?;
        self.tell_answer(done)
    }

    /// Tells the traps that wait.
    pub(crate) fn tell_armed(&mut self) -> Result<(), CaseFault> {
        match &self.running {
            Some(running) => Ok(push_armed(&mut self.told, running.site.armed())?),
            None => Err(CaseFault::Form),
        }
    }

    /// Tells how many entries and effects there were before the first move.
    pub(crate) fn tell_opening(&mut self) -> Result<(), CaseFault> {
        let opening = self.site()?.opening();
        self.tell_value(Before(opening))
    }

    pub(crate) fn tell_halted(&mut self) -> Result<(), CaseFault> {
        let halted = self.site()?.halted();
        self.tell_value(Truth(halted))
    }

    /// Tells what the disk of an instance holds.
    pub(crate) fn read(&mut self, inst: &Inst) -> Result<(), CaseFault> {
        let Some(running) = &self.running else {
            return Err(CaseFault::Form);
        };
        match running.site.read_disk(inst) {
            Ok(contents) => push_held(&mut self.told, contents),
            Err(fault) => Refused(fault).push_to(&mut self.told),
        }
    }

    /// Tells what is there.
    pub(crate) fn tell_there(&mut self) -> Result<(), CaseFault> {
        match &self.running {
            Some(running) => {
                let there = there(running, Numbers::Told);
                Ok(push_there(self.alloc, &mut self.told, &there)?)
            }
            None => Err(CaseFault::Form),
        }
    }

    /// What is there, without numbers.
    pub(crate) fn state(&self) -> Result<Vec<u8>, CaseFault> {
        let Some(running) = &self.running else {
            return Err(CaseFault::Form);
        };
        let mut text = Vec::new(self.alloc);
        push_there(self.alloc, &mut text, &there(running, Numbers::LeftOut))?;
        Ok(text)
    }

    /// Gives each call up, and goes on with the site.
    pub(crate) fn give_up(&mut self) {
        match self.running.take() {
            Some(running) => self.set(running.into_site()),
            None => {}
        }
    }

    // Goes on with a site.
    fn set(&mut self, site: MemSite) {
        match self.running.replace(Running::of(site)) {
            Some(old) => old.close(),
            None => {}
        }
    }

    /// Starts the director anew, and tells how that went.
    pub(crate) fn restart(&mut self) -> Result<(), CaseFault> {
        let done = self.site()?.restart();
        self.tell_answer(done)
    }

    fn take_site(&mut self) -> Result<MemSite, CaseFault> {
        match self.running.take() {
            Some(running) => Ok(running.into_site()),
            None => Err(CaseFault::Form),
        }
    }

    /// Loads a site of the same stores. Calls are given up.
    pub(crate) fn load(&mut self) -> Result<(), CaseFault> {
        let (store, cloud) = self.take_site()?.into_stores();
        let loaded = load(self.alloc, store, cloud);
        self.go_on(loaded)
    }

    /// The same where an append to the cloud's store is to fail.
    pub(crate) fn load_rigged(&mut self, k: u64, how: Rig) -> Result<(), CaseFault> {
        let (store, mut cloud) = self.take_site()?.into_stores();
        rig(&mut cloud, k, how)?;
        let loaded = load(self.alloc, store, cloud);
        self.go_on(loaded)
    }

    /// The same where harm is done to the director's store.
    pub(crate) fn load_harmed(&mut self, done: Harm) -> Result<(), CaseFault> {
        let (mut store, cloud) = self.take_site()?.into_stores();
        do_harm(&mut store, done)?;
        let loaded = load(self.alloc, store, cloud);
        self.go_on(loaded)
    }

    /// The same where harm is done to the cloud's store.
    pub(crate) fn load_harmed_cloud(&mut self, done: Harm) -> Result<(), CaseFault> {
        let (store, cloud) = self.take_site()?.into_stores();
        let cloud = harmed(self.alloc, cloud, done)?;
        let loaded = load(self.alloc, store, cloud);
        self.go_on(loaded)
    }

    fn go_on(&mut self, loaded: Result<MemSite, SiteFault>) -> Result<(), CaseFault> {
        match loaded {
            Ok(site) => {
                self.set(site);
                self.moves = 0;
                self.tell("ok")
            }
            Err(fault) => self.tell_value(Refused(fault)),
        }
    }
}

fn new_running(alloc: Global) -> Option<Running> {
    match new_site(alloc) {
        Some(site) => Some(Running::of(site)),
        None => None,
    }
}

fn push_held(text: &mut Vec<u8>, contents: &[u8]) -> Result<(), CaseFault> {
    Ok(push_parts(text, &[b"holds ", contents])?)
}

fn arm(site: &mut MemSite, trap: Trap) -> Result<Result<(), SiteFault>, CaseFault> {
    if !is_counted(&trap) {
        return Err(CaseFault::Form);
    }
    Ok(site.arm(trap))
}

fn there(running: &Running, numbers: Numbers) -> There<'_> {
    There {
        records: running.site.book().records(),
        machines: running.site.cloud().machines(),
        disks: running.site.cloud().disks(),
        numbers,
    }
}
