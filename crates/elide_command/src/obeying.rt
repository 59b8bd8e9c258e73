//! One command, by the crate that carries it out.
//!
//! [`Job::obey`] chooses among them. Each stands in a function of its own that is not inlined: a stack that is small
//! has to hold what one command keeps there, and not what all of them do. How it ended is made an answer by `answer`,
//! and told by `dispatch`.

use crate::answer::{Answer, done, ran, replayed, searched, sought};
use crate::look::Look;
use elide_args::{
    AsmOptions, DisOptions, DrawOptions, HuntOptions, OutcomesOptions, PageOptions, ReplayOptions,
    RunOptions, SessionOptions, StatsOptions, Subcommand, ThreadsOptions,
};
use elide_asm::{asm, dis};
use elide_color::PaintedWords;
use elide_device::{Lent, Progress};
use elide_draw::draw;
use elide_explain::explain;
use elide_hunt::hunt;
use elide_outcomes::outcomes;
use elide_page::{PageFiles, page};
use elide_program::Paths;
use elide_replay::replay;
use elide_run::run;
use elide_session::{debug, gdb};
use elide_setup::Refusal;
use elide_stats::stats;
use elide_threads::threads;
use std::alloc::Global;
use std::sync::Wait;
use std::thread::Threads;
use text_out::Out;
use tm_debug::In;

/// What a command is carried out with.
#[derive(Drop)]
pub struct Job<'a, P, I, O, G> {
    paths: &'a mut P,
    input: &'a mut I,
    out: &'a mut O,
    progress: &'a mut G,
    look: Look,
}

impl<'a, P: Paths, I: In, O: Out, G: Progress + Send> Job<'a, P, I, O, G> {
    /// These files and devices, and how what is written looks.
    pub fn new(
        paths: &'a mut P,
        input: &'a mut I,
        out: &'a mut O,
        progress: &'a mut G,
        look: Look,
    ) -> Job<'a, P, I, O, G> {
        Job {
            paths,
            input,
            out,
            progress,
            look,
        }
    }

    /// Does what is asked for. `test`, whose commands come here, is misused.
    pub fn obey<R: Threads + Wait + Sync + AllocGlobal>(
        &mut self,
        rt: &R,
        subcommand: &Subcommand<'_>,
    ) -> Result<Answer, Refusal> {
        let alloc = rt.alloc();
        match subcommand {
            Subcommand::Asm(options) => {
                assemble(alloc, options, &mut *self.paths, &mut *self.out, self.look)
            }
            Subcommand::Dis(options) => self.disassemble(alloc, options),
            Subcommand::Explain(options) => done(explain(options, self.out)),
            Subcommand::Test(_) => Err(Refusal::Usage("test")),
            Subcommand::Threads(options) => self.threads(rt, options),
            Subcommand::Debug(options) => self.debug(rt, options),
            Subcommand::Gdb(options) => self.gdb(rt, options),
            Subcommand::Draw(options) => self.draw(alloc, options),
            Subcommand::Page(options) => self.page(alloc, options),
            Subcommand::Stats(options) => self.stats(alloc, options),
            Subcommand::Run(options) => self.run(alloc, options),
            Subcommand::Hunt(options) => self.hunt(rt, options),
            Subcommand::Outcomes(options) => self.outcomes(alloc, options),
            Subcommand::Replay(options) => self.replay(alloc, options),
        }
    }

    // Prints a program's instructions.
    #[inline(never)]
    fn disassemble(&mut self, alloc: Global, options: &DisOptions<'_>) -> Result<Answer, Refusal> {
        let painting = self.look.listing();
        let out = PaintedWords::new(self.out, painting);
        let out = dis(alloc, options, self.paths, out)?;
        drop(out);
        Ok(Answer::Done)
    }

    #[inline(never)]
    fn threads<R: Threads + Wait + Sync + AllocGlobal>(
        &mut self,
        rt: &R,
        options: &ThreadsOptions<'_>,
    ) -> Result<Answer, Refusal> {
        done(threads(
            rt,
            options,
            self.look.names_stops,
            self.paths,
            Lent::new(self.out),
            self.progress,
        ))
    }

    #[inline(never)]
    fn debug<R: Threads + Wait + Sync + AllocGlobal>(
        &mut self,
        rt: &R,
        options: &SessionOptions<'_>,
    ) -> Result<Answer, Refusal> {
        done(debug(
            rt,
            rt.alloc(),
            options,
            self.paths,
            self.input,
            self.out,
            self.look.terminals,
        ))
    }

    #[inline(never)]
    fn gdb<R: Threads + Wait + Sync + AllocGlobal>(
        &mut self,
        rt: &R,
        options: &SessionOptions<'_>,
    ) -> Result<Answer, Refusal> {
        done(gdb(rt, rt.alloc(), options, self.paths, self.input, self.out))
    }

    #[inline(never)]
    fn draw(&mut self, alloc: Global, options: &DrawOptions<'_>) -> Result<Answer, Refusal> {
        done(draw(alloc, options, self.paths, self.out, self.progress))
    }

    #[inline(never)]
    fn page(&mut self, alloc: Global, options: &PageOptions<'_>) -> Result<Answer, Refusal> {
        done(page(
            alloc,
            options,
            self.paths,
            Lent::new(self.out),
            self.progress,
        ))
    }

    #[inline(never)]
    fn stats(&mut self, alloc: Global, options: &StatsOptions<'_>) -> Result<Answer, Refusal> {
        done(stats(alloc, options, self.paths, self.out, self.progress))
    }

    #[inline(never)]
    fn run(&mut self, alloc: Global, options: &RunOptions<'_>) -> Result<Answer, Refusal> {
        ran(run(
            alloc,
            options,
            self.look.names_stops,
            self.paths,
            Lent::new(self.out),
            self.progress,
        ))
    }

    #[inline(never)]
    fn hunt<R: Threads + Wait + Sync + AllocGlobal>(
        &mut self,
        rt: &R,
        options: &HuntOptions<'_>,
    ) -> Result<Answer, Refusal> {
        sought(hunt(
            rt,
            options,
            self.paths,
            &PageFiles,
            Lent::new(self.out),
            self.progress,
        ))
    }

    #[inline(never)]
    fn outcomes(
        &mut self,
        alloc: Global,
        options: &OutcomesOptions<'_>,
    ) -> Result<Answer, Refusal> {
        searched(outcomes(
            alloc,
            options,
            self.paths,
            &PageFiles,
            Lent::new(self.out),
            self.progress,
        ))
    }

    #[inline(never)]
    fn replay(&mut self, alloc: Global, options: &ReplayOptions<'_>) -> Result<Answer, Refusal> {
        replayed(replay(
            alloc,
            options,
            self.look.names_stops,
            self.paths,
            Lent::new(self.out),
            self.progress,
        ))
    }
}

// Prints what a source assembles to. Its device is lent by itself: what paints its words is handed on as a whole.
#[inline(never)]
fn assemble<P: Paths, O: Out>(
    alloc: Global,
    options: &AsmOptions<'_>,
    paths: &mut P,
    out: &mut O,
    look: Look,
) -> Result<Answer, Refusal> {
    let mut out = PaintedWords::new(out, look.assembly(options.lists));
    asm(alloc, options, paths, &mut out)?;
    Ok(Answer::Done)
}
