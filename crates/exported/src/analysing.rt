// A tree analysed, also under the settings of an edition, and the chances under them, for other languages.
ghost use Rattle.std.specs.Prelude.{◌≡◌, Result};
ghost use Rattle.paper.specs.Answers.{Verdict};
ghost use Rattle.memory.specs.Memory.{memory};
ghost use Rattle.memory.specs.Analysis.{Analysis, analysis_of};
ghost use Rattle.analyser.specs.Analysed.{Analysed};
ghost use Rattle.settings.specs.States.{ChancesForced};
ghost use Rattle.seasons.specs.Seasons.{AnalysedUnder};
ghost use Rattle.exported.specs.Numbers.{of_analysis, of_verdict};

use memory::Tables;
use paper::refusal::Refused;

// Puts the numbers of an analysis into an array.
fn tell(r: Result<Tables, Refused>, answer: &mut [u64; 6])
    ensures { answer.new ≡ of_analysis (analysis_of r) }
{
    *answer = match r {
        Ok(t) => [
            0,
            0,
            t.nodes as u64,
            t.cut_nodes as u64,
            t.root as u64,
            t.cut_root as u64,
        ],
        Err(refused) => [
            refused.why.number() as u64,
            refused.place as u64,
            0,
            0,
            0,
            0,
        ],
    };
}

// Analyses a tree. The answer: number, place, nodes, cut nodes, root, cut root.
#[unsafe(no_mangle)]
pub extern "C" fn matticklet_analyse(
    bytes: &[u8],
    nodes: &mut [u32],
    cuts: &mut [u32],
    gates: &mut [u32],
    added: &mut [u32],
    memo: &mut [u32],
    heads: &mut [u32],
    next: &mut [u32],
    marks: &mut [u32],
    own: &mut [u32],
    answer: &mut [u64; 6],
)
    ensures { (r : Analysis) × (Analysed bytes.now (memory nodes.old cuts.old gates.old added.old memo.old heads.old next.old marks.old own.old) (memory nodes.new cuts.new gates.new added.new memo.new heads.new next.new marks.new own.new) r × (answer.new ≡ of_analysis r)) }
{
    let r = analyser::analyse(
        bytes, nodes, cuts, gates, added, memo, heads, next, marks, own,
    );
    tell(r, answer);
}

// Analyses it under the settings of an edition. The answer: the same numbers.
#[unsafe(no_mangle)]
pub extern "C" fn matticklet_analyse_season(
    bytes: &[u8],
    store: &[u8],
    edition: u16,
    nodes: &mut [u32],
    cuts: &mut [u32],
    gates: &mut [u32],
    added: &mut [u32],
    memo: &mut [u32],
    heads: &mut [u32],
    next: &mut [u32],
    marks: &mut [u32],
    own: &mut [u32],
    answer: &mut [u64; 6],
)
    ensures { (r : Analysis) × (AnalysedUnder bytes.now store.now edition (memory nodes.old cuts.old gates.old added.old memo.old heads.old next.old marks.old own.old) (memory nodes.new cuts.new gates.new added.new memo.new heads.new next.new marks.new own.new) r × (answer.new ≡ of_analysis r)) }
{
    let r = seasons::analyse_season(
        bytes, store, edition, nodes, cuts, gates, added, memo, heads, next, marks, own,
    );
    tell(r, answer);
}

// Makes the chances of all events of a tree those under the settings of an edition. The answer: number, place.
#[unsafe(no_mangle)]
pub extern "C" fn matticklet_chances_under(
    store: &[u8],
    edition: u16,
    chances: &mut [u32],
    answer: &mut [u64; 2],
)
    ensures { (v : Verdict) × (ChancesForced store.now edition chances.old chances.new v.number v.place × (answer.new ≡ of_verdict v)) }
{
    *answer = match settings::chances_under(store, edition, chances) {
        Ok(()) => [0, 0],
        Err(refused) => [refused.why.number() as u64, refused.place as u64],
    };
}
