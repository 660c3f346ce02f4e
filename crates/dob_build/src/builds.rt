// Building a database file.
ghost use Rattle.std.specs.Prelude.{◌≡◌, ℕ, false, IfOk, IfErr, MatchResult};
ghost use Rattle.dob_device.specs.Sinks.{change};
ghost use Rattle.dob_pieces.specs.declared.profile.Family.{Family};
ghost use Rattle.dob_files.specs.Keeping.{FillsSink};
ghost use Rattle.dob_files.specs.Owed.{GivesOwed};
ghost use Rattle.dob_safra.specs.Laws.{IsSize};
ghost use Rattle.dob_build.specs.Builds.{AreBuilt, AreNodes, HaveBuilt, IsRunFault, IsUnbuilt, build_owed};

use dob_classes::count_classes;
use dob_dbfile::Sink;
use dob_files::{Answer, fill_with_table, keep_filled};
use dob_lines::{Console, Progress, lines_of, tell_need};
use dob_pieces::{Family, PieceSet};
use dob_run::{Built, CrewSizes, Gate, build_by};
use dob_safra::NodeCount;
use dob_shelf::Shelf;
use dob_words::command::BuildOrder;
use std::alloc::Global;
use std::sync::Wait;
use std::thread::{Threads, available_parallelism};

/// The most nodes that a build takes by itself.
const MOST_NODES: usize = 16;

/// Builds the table that is ordered, and keeps it under the name. The lines that say how many classes have which value. Its promises hold if it returns.
///
/// The file is made before the table is built, and kept when it is whole; until then it is as it was, and so it is after any fault.
/// What is wrong with the set or with the number of nodes is told before it is made. Where it is watched, lines on the console say what
/// memory the build takes and how far it is.
pub fn answer_build<R: Threads + Wait + Sync + Console, S: Shelf>(
    rt: &R,
    alloc: Global,
    shelf: &mut S,
    order: BuildOrder<'_>,
) -> Answer
    ensures { GivesOwed (build_owed order.entry.profile order.entry.set.now order.entry.nodes order.entry.file.now) S.state shelf.old shelf.new result }
{
    let BuildOrder {
        profile,
        set,
        nodes,
        file,
        is_watched,
    } = order;
    let set = PieceSet::read(set)?;
    let family = Family { set, profile };
    let nodes = node_count(rt, nodes)?;
    let mut sink = shelf.make(file)?;
    let filled = fill_built(rt, alloc, &mut sink, family, nodes, is_watched);
    keep_filled(shelf, file, sink, filled)
}

// Builds the family's table by so many nodes, and fills the sink with its file. The lines that say how many classes have which value.
fn fill_built<R: Threads + Wait + Sync + Console, D: Sink>(
    rt: &R,
    alloc: Global,
    sink: &mut D,
    family: Family,
    nodes: NodeCount,
    is_watched: bool,
) -> Answer
    requires { (D.state sink.old).has_failed ≡ false }
    ensures { FillsSink (AreBuilt family nodes) (IsUnbuilt family nodes) result (change (D.state sink.old) (D.state sink.new)) }
{
    let built = run_watched(rt, alloc, family, nodes, is_watched)?;
    let lines = lines_of(rt, alloc, &built.table)?;
    fill_with_table(alloc, sink, &built.table, &built.digest, lines)
}

// As many nodes as are asked for, if a build may have so many.
fn node_count(rt: &impl Threads, asked: Option<u64>) -> Result<NodeCount, dob_run::Fault>
    ensures size { IfOk result (λ nodes. AreNodes asked nodes × IsSize nodes) }
    ensures fault { IfErr result (λ fault. (family : Family) → (nodes : ℕ) × AreNodes asked nodes × IsRunFault family nodes fault) }
{
    let Some(number) = asked else {
        return Ok(usual_nodes(rt));
    };
    let Some(nodes) = NodeCount::new(number as usize) else {
        return Err(dob_run::Fault::Nodes);
    };
    Ok(nodes)
}

// As many nodes as there are processors, at most as a build may have; one if that isn't known.
fn usual_nodes(rt: &impl Threads) -> NodeCount
    ensures { IsSize result }
{
    let Ok(processors) = available_parallelism(rt) else {
        return NodeCount::one();
    };
    NodeCount::new(processors.get().min(MOST_NODES)).unwrap_or(NodeCount::one())
}

// Builds the family's table by so many nodes. If it is watched, the console reports it.
fn run_watched<R: Threads + Wait + Sync + Console>(
    rt: &R,
    alloc: Global,
    family: Family,
    nodes: NodeCount,
    is_watched: bool,
) -> Result<Built, dob_run::Fault>
    ensures { MatchResult result (HaveBuilt family nodes) (IsRunFault family nodes) }
{
    let sizes = CrewSizes::usual(nodes);
    let steps = Steps(progress_of(rt, family, is_watched));
    let built = build_by(rt, alloc, family, &sizes, &steps);
    steps.0.end();
    built
}

// The progress of a build, which its gate receives.
#[derive(Drop)]
struct Steps<'a, C>(Progress<'a, C>);

impl<C: Console> Gate for Steps<'_, C> {
    ghost use Rattle.std.specs.Prelude.{◌≡◌, true};

    ghost says = { λ _ _ yes. yes ≡ true };

    ghost told = { λ _ _ _. Unit {0} };

    fn enter(&self, _node: usize) -> bool {
        true
    }

    fn worked(&self, _node: usize, expanded: u64) {
        self.0.add(expanded);
    }
}

// The progress of a build of the family. Where it is watched, the console says what memory that takes.
fn progress_of<C: Console>(console: &C, family: Family, is_watched: bool) -> Progress<'_, C> {
    if !is_watched {
        return Progress::new(console, false, 0);
    }
    let classes = count_classes(family);
    tell_need(console, classes);
    Progress::new(console, true, classes)
}
