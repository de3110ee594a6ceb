//! Laws of lists, of the cache, of answers and of the codec, which a caller cites by calling them.
//! They do nothing when they run.
ghost use Rattle.std.specs.Prelude.{◌≡◌, ◌≤◌, ◌↔◌, ℕ, Bool, false, true, List, ◌∷◌, Option, Some, is_some, Ok};
ghost use Rattle.broadcast_core.specs.Setting.{whole, Setting};
ghost use Rattle.std.specs.Cmp.{IsEquivalence};
ghost use Rattle.entries.specs.declared.entry.Charged.{Charged};
ghost use Rattle.broadcast_core.specs.Carried.{Carried};
ghost use Rattle.broadcast_core.specs.Content.{bytes_of, same_by};
ghost use Rattle.broadcast_core.specs.Company.{has_stayed};
ghost use Rattle.broadcast_core.specs.Happening.{History, Future, get};
ghost use Rattle.broadcast_core.specs.Peers.{since};
ghost use Rattle.broadcast_core.specs.Lists.{charged_list, list};
ghost use Rattle.broadcast_core.specs.Cache.{is_listed, message};
ghost use Rattle.broadcast_core.specs.Waiting.{Awaiting, Reply, reply};
ghost use Rattle.broadcast_core.specs.Log.{Log};
ghost use Rattle.broadcast_core.specs.HasRun.{IsAnswered};
ghost use Rattle.broadcast_core.specs.TakenLaw.{IsFrom, IsFirst, FoundWasTaken};
ghost use Rattle.broadcast_core.specs.ListLaw.{FitTogether, HasAlwaysFitted, last_distinct, messages_under};

use crate::codec::Codec;
use crate::digested::Digestible;
use crate::ordered::PublicKey;

/// Proves what follows from the definition of a list, for every history.
///
/// The digests of a list are charged at most the byte budget. If all messages taken under a key
/// since it was last not primary fit the budget together, its list has the last `deque_size`
/// distinct digests, as if there were no budget. A digest has stayed if and only if the digests
/// taken since it was last taken have fitted at every moment since.
pub fn list_law<P: PublicKey, M: Digestible, W, V>()
    ensures within_budget { (s : Setting P M M.Digest) → IsEquivalence s.same.digest → (p : P)
        → (past : History P M M.Digest W V) → bytes_of (charged_list s p past) ≤ s.byte_budget }
    ensures whole_if_all_fit { (s : Setting P M M.Digest) → IsEquivalence s.same.digest → (p : P)
        → (past : History P M M.Digest W V) → FitTogether s (messages_under s p (since s p past))
        → list s p past ≡ last_distinct s p past }
    ensures stays_while_it_fits { (same : M.Digest → M.Digest → Bool) → IsEquivalence same
        → (size budget : ℕ) (c : Charged M.Digest) (takings : List (Charged M.Digest))
        → (has_stayed same size budget c takings ≡ true)
        ↔ HasAlwaysFitted same size budget c takings }
{}

/// Proves that the equalities of an order of keys and of an order of digests are equivalences, as
/// the other laws ask.
pub fn same_law<P: Ord, D: Ord>()
    ensures key { IsEquivalence (same_by P.cmp D.cmp).key }
    ensures digest { IsEquivalence (same_by P.cmp D.cmp).digest }
{}

/// Proves what follows from the definition of the cache, for every history.
///
/// A cached message was taken before, and goes by the digest under which it is cached. A digest has
/// a cached message if and only if it is listed.
pub fn cache_law<P: PublicKey, M: Digestible, W, V>()
    ensures was_taken { (s : Setting P M M.Digest) → IsEquivalence s.same.key
        → IsEquivalence s.same.digest → (past : History P M M.Digest W V) (d : M.Digest)
        (c : Carried M M.Digest) → message s d past ≡ Some c → IsFrom s d past c }
    ensures if_listed { (s : Setting P M M.Digest) → IsEquivalence s.same.key
        → (past : History P M M.Digest W V) (d : M.Digest)
        → is_some (message s d past) ≡ is_listed s d past }
{}

/// Proves what follows from the definitions of the replies, for every history.
///
/// The message with which a get is answered was taken before, and goes by the digest that was
/// asked for; so does the reply to a subscribe of a listed digest. The reply to a subscribe that
/// waits is the first later message that goes by its digest, if no cleanup before that names it.
/// Each message that the answers of a run find was taken by an earlier event.
pub fn answer_law<P: PublicKey, M: Digestible, W, V>()
    ensures to_get { (s : Setting P M M.Digest) → IsEquivalence s.same.key
        → IsEquivalence s.same.digest → (past : History P M M.Digest W V) (v : V) (d : M.Digest)
        (c : Carried M M.Digest) → message s d (get v d ∷ past) ≡ Some c → IsFrom s d past c }
    ensures to_subscribe { (s : Setting P M M.Digest) → IsEquivalence s.same.key
        → IsEquivalence s.same.digest → (w : Awaiting W M.Digest)
        (past : History P M M.Digest W V) (after : Future P M M.Digest W V)
        (r : Reply M M.Digest) → is_listed s w.digest past ≡ true
        → reply s w past after ≡ Some r → IsFrom s w.digest past r.1 }
    ensures to_waiting { (s : Setting P M M.Digest) → IsEquivalence s.same.key
        → IsEquivalence s.same.digest → (w : Awaiting W M.Digest)
        (past : History P M M.Digest W V) (after : Future P M M.Digest W V)
        (r : Reply M M.Digest) → is_listed s w.digest past ≡ false
        → (reply s w past after ≡ Some r) ↔ IsFirst s w after r }
    ensures found { (s : Setting P M M.Digest) → IsEquivalence s.same.key
        → IsEquivalence s.same.digest → (log : Log P M M.Digest) → IsAnswered s log
        → FoundWasTaken s log }
{}

/// Proves that bytes which encode a message decode to that message, if they decode.
pub fn codec_law<M: Codec>()
    ensures { (cfg : M.Cfg) (message decoded : M) (bytes : List ℕ)
        → M.encoding message ≡ Some bytes → whole (M.reading cfg) bytes ≡ Ok decoded
        → decoded ≡ message }
{}
