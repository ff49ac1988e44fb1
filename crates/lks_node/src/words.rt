//! The words of the command line.
ghost use Rattle.std.specs.Prelude.{◌≡◌, map, option_map, string_bytes};
ghost use Rattle.lks_node.specs.Words.{asked_in};

use lks_base::PeerId;
use lks_words::number;

/// The number of a peer and the path of its journal, if the words are these two. The path isn't empty.
pub fn asked<'a>(words: &'a [String]) -> Option<(PeerId, &'a str)>
    ensures { option_map (λ p. (p.0, p.1.now)) result ≡ asked_in (map string_bytes words.entry.now) }
{
    let [peer, path] = words else {
        return None;
    };
    if path.is_empty() {
        return None;
    }
    let id = number(u64::from(PeerId::MAX), peer.as_bytes())? as PeerId;
    Some((id, path.as_str()))
}
