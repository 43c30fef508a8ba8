//! What a source means is one thing at most.
ghost use Rattle.std.specs.Prelude.{◌≡◌, List, ℕ};
ghost use Rattle.ks_core.specs.Table.{KeysymTable};
ghost use Rattle.kx_headline.specs.Played.{AnswersAs};
ghost use Rattle.kx_include.specs.Source.{Handed};
ghost use Rattle.kx_lex.specs.declared.fault.Fault.{Fault};
ghost use Rattle.kx_run.specs.Replies.{Answer};
ghost use Rattle.kx_run.specs.declared.direction.Event.{Event};
ghost use Rattle.kx_source.specs.Source.{HasFault, Means};
ghost use Rattle.kx_tables.specs.Content.{Content};

use kx_lex::one_reading;
use kx_parse::{one_stop, one_tree};

/// A source means one content of tables at most, and its keyboard one list of answers to each list of events.
pub fn one_meaning()
    ensures content { (source : List ℕ) (files : Handed) (names : KeysymTable) (one other : Content)
        → Means source files names one → Means source files names other → one ≡ other }
    ensures answers { (source : List ℕ) (files : Handed) (names : KeysymTable) (events : List Event)
        (one other : List Answer) → AnswersAs source files names events one
        → AnswersAs source files names events other → one ≡ other }
{
    one_reading();
    one_tree();
    one_stop();
}

/// A source with a fault means no tables, and no answers.
pub fn faults_mean_nothing()
    ensures tables { (source : List ℕ) (files : Handed) (names : KeysymTable) (fault : Fault)
        (content : Content) → HasFault source files names fault → Means source files names content
        → ⊥ }
    ensures answers { (source : List ℕ) (files : Handed) (names : KeysymTable) (fault : Fault)
        (events : List Event) (answers : List Answer) → HasFault source files names fault
        → AnswersAs source files names events answers → ⊥ }
{
    one_reading();
    one_tree();
    one_stop();
}
