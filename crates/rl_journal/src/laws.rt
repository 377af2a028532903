// What is proved of legal journals, and of their words.
ghost use Rattle.std.specs.Prelude.{◌≡◌, ◌↔◌, ℕ, Bool, true, false, List, All, count_by, filter, length, slice_get, Some};
ghost use Rattle.std.specs.FinMap as map;
ghost use Rattle.rl_model.specs.declared.entry.Entry.{Entry};
ghost use Rattle.rl_model.specs.declared.geom.Geom.{Geom};
ghost use Rattle.rl_model.specs.declared.entry.Reply.TheVariants.{Undone};
ghost use Rattle.rl_journal.specs.Blocks.{any_stops, in_turn, calls_of, replies_of};
ghost use Rattle.rl_journal.specs.Legal.{table_after, updates, is_of, AnotherStops, IsLegal, IsLegalJournal, OfLegalBlock};
ghost use Rattle.rl_journal.specs.Ranks.{IsOwn, count_in};
ghost use Rattle.rl_journal.specs.History.{history, IsReplayedByOneThread, TellsUpdatesBefore, AreOwn, IsSorted, OfLegal};
ghost use Rattle.rl_journal.specs.Journal.{spelled, Agrees, journal_in};

/// What is proved of a legal block: all of its calls or none. There is nothing to run.
pub fn block_laws()
    // A call is undone exactly where another call of its block has no room or runs over.
    ensures undone { OfLegalBlock (λ geom t b. (i : ℕ) (e : Entry) → slice_get b i ≡ Some e → (e.reply ≡ Undone) ↔ AnotherStops b i) }
    // Where a call has no room or runs over, the table stays as it was.
    ensures none { OfLegalBlock (λ geom t b. any_stops (replies_of b) ≡ true → table_after geom t b ≡ t) }
    // Else table and replies are those of the calls one after the other.
    ensures all { OfLegalBlock (λ geom t b. any_stops (replies_of b) ≡ false →
        (table_after geom t b, replies_of b) ≡ in_turn geom t (calls_of b)) }
{}

/// What is proved of a journal and the ranks' transcripts, where they are legal. There is nothing to run.
pub fn history_laws()
    // From the empty table the blocks of the history give every entry its reply, one after the other.
    ensures replayed { OfLegal (λ geom journal ts. IsReplayedByOneThread geom map.empty 0 (history journal ts)) }
    // Every entry's place is the number of updates before it.
    ensures places { OfLegal (λ geom journal ts. TellsUpdatesBefore (history journal ts)) }
    // The history has each entry as often as the transcripts have it, whatever test counts them.
    ensures entries { (geom : Geom) (journal : List Entry) (ts : List (List Entry)) (test : Entry → Bool) → IsLegal geom journal ts →
        count_by test (history journal ts) ≡ count_in test ts }
    // Its updates, in their order, are the journal.
    ensures updates { OfLegal (λ geom journal ts. filter updates (history journal ts) ≡ journal) }
    // Its entries of a rank, in their order, are that rank's transcript.
    ensures ranks { OfLegal (λ geom journal ts. AreOwn 0 ts →
        (k : ℕ) (t : List Entry) → slice_get ts k ≡ Some t → filter (is_of k) (history journal ts) ≡ t) }
    // It is ordered by place; at one place gets and holds come first, by rank and then by number.
    ensures sorted { OfLegal (λ geom journal ts. AreOwn 0 ts → IsSorted (history journal ts)) }
{}

/// What is proved of the words of a legal journal. There is nothing to run.
pub fn journal_laws()
    // Words that spell it are read back as it.
    ensures read { (geom : Geom) (shard base : ℕ) (words : List ℕ) (journal : List Entry) → IsLegalJournal geom journal →
        All (λ e. IsOwn shard e.rank e) journal → Agrees words base (spelled journal) → journal_in shard words base (length journal) ≡ journal }
{}
