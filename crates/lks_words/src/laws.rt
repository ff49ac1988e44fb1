//! What is printed reads back.

ghost use Rattle.std.specs.Prelude.{◌≡◌, ◌<◌, ◌≤◌, ◌^◌, ◌++◌, ◌∷◌, ℕ, Bool, true, Some, List, length, map};
ghost use Rattle.std.specs.Fmt.{decimal};
ghost use Rattle.std.specs.List.{All, list_all};
ghost use Rattle.hex.specs.Hex.{IsBytes, encode_lower};
ghost use Rattle.lks_base.specs.declared.limits.TheConstants.{LAST_NUMBER, MOST_BLOCK_BYTES, MOST_FORGED_BYTES};
ghost use Rattle.lks_base.specs.declared.limits.TheConstants.{MOST_PROOF_BYTES};
ghost use Rattle.lks_base.specs.declared.names.HashKind.{HashKind};
ghost use Rattle.lks_words.specs.Numbers.{number_in};
ghost use Rattle.lks_words.specs.Printing.{behind, hex_or_hyphen, blocks_text, answer_text, kind_text, hash_text};
ghost use Rattle.lks_words.specs.Texts.{are_above, AreFew};
ghost use Rattle.lks_words.specs.Words.{parts, each_in, id_in, seed_in, proof_in, bytes_in, block_in, blocks_in};
ghost use Rattle.lks_words.specs.Words.{answer_in, kind_in, hash_in};

/// Each number up to the most that its reader takes, and so each id, index and poll, is printed as the only word that
/// says it.
pub fn every_number_reads_back()
    ensures again { (most n : ℕ) → most < 2 ^ 64 → n ≤ most → number_in most (decimal n) ≡ Some n }
    ensures alone { (most n : ℕ) (word : List ℕ) → most < 2 ^ 64 → number_in most word ≡ Some n → word ≡ decimal n }
{}

/// Each seed of 32 bytes.
pub fn every_seed_reads_back()
    ensures { (seed : List ℕ) → IsBytes seed → length seed ≡ 32 → seed_in (encode_lower seed) ≡ Some seed }
{}

/// Each proof of effort, no bytes among them.
pub fn every_proof_reads_back()
    ensures { (proof : List ℕ) → AreFew MOST_PROOF_BYTES proof → proof_in (hex_or_hyphen proof) ≡ Some proof }
{}

/// The bytes of each forged message, no bytes among them.
pub fn every_forgery_reads_back()
    ensures { (message : List ℕ) → AreFew MOST_FORGED_BYTES message → bytes_in (hex_or_hyphen message) ≡ Some message }
{}

/// Each block, the empty one among them.
pub fn every_block_reads_back()
    ensures { (block : List ℕ) → AreFew MOST_BLOCK_BYTES block → block_in (hex_or_hyphen block) ≡ Some block }
{}

/// The blocks of each copy that has one at least.
pub fn every_copy_reads_back()
    ensures { (blocks : List (List ℕ)) → 1 ≤ length blocks → All (AreFew MOST_BLOCK_BYTES) blocks
        → blocks_in (blocks_text blocks) ≡ Some blocks }
{}

/// Each list of numbers of peers; and behind another word it is split into these numbers.
pub fn every_list_reads_back()
    ensures again { (ids : List ℕ) → All (λ n. n ≤ LAST_NUMBER) ids → each_in id_in (map decimal ids) ≡ Some ids }
    ensures splits { (key ids : List ℕ) → are_above 32 key ≡ true → All (λ n. n ≤ LAST_NUMBER) ids
        → parts 32 (key ++ behind 32 decimal ids) ≡ key ∷ map decimal ids }
{}

/// Each answer, each kind of peer and each hash.
pub fn every_name_reads_back()
    ensures answers { (answer : Bool) → answer_in (answer_text answer) ≡ Some answer }
    ensures kinds { (corrupt : Bool) → kind_in (kind_text corrupt) ≡ Some corrupt }
    ensures hashes { (hash : HashKind) → hash_in (hash_text hash) ≡ Some hash }
{}

/// A printed value has no space, no line feed and no other byte up to the space, and but for blocks it has no comma.
pub fn every_printed_value_is_a_word()
    ensures numbers { (n : ℕ) → n < 2 ^ 64 → are_above 44 (decimal n) ≡ true }
    ensures seeds { (bytes : List ℕ) → IsBytes bytes → are_above 44 (encode_lower bytes) ≡ true }
    ensures bytes { (bytes : List ℕ) → IsBytes bytes → are_above 44 (hex_or_hyphen bytes) ≡ true }
    ensures blocks { (blocks : List (List ℕ)) → All (AreFew MOST_BLOCK_BYTES) blocks
        → are_above 43 (blocks_text blocks) ≡ true }
    ensures answers { (answer : Bool) → are_above 44 (answer_text answer) ≡ true }
    ensures kinds { (corrupt : Bool) → are_above 44 (kind_text corrupt) ≡ true }
    ensures hashes { (hash : HashKind) → are_above 44 (hash_text hash) ≡ true }
{}

/// A word, and words behind a space each, are split into these words.
pub fn every_line_parts_again()
    ensures { (first : List ℕ) (words : List (List ℕ)) → are_above 32 first ≡ true
        → list_all (are_above 32) words ≡ true → parts 32 (first ++ behind 32 (λ w. w) words) ≡ first ∷ words }
{}

/// What is read is within its limits; so it is printed as a word that reads back.
pub fn every_value_read_fits()
    ensures numbers { (most : ℕ) (word : List ℕ) (n : ℕ) → number_in most word ≡ Some n → n ≤ most }
    ensures seeds { (word seed : List ℕ) → seed_in word ≡ Some seed → IsBytes seed × (length seed ≡ 32) }
    ensures proofs { (word proof : List ℕ) → proof_in word ≡ Some proof → AreFew MOST_PROOF_BYTES proof }
    ensures forgeries { (word message : List ℕ) → bytes_in word ≡ Some message → AreFew MOST_FORGED_BYTES message }
    ensures blocks { (word block : List ℕ) → block_in word ≡ Some block → AreFew MOST_BLOCK_BYTES block }
    ensures copies { (word : List ℕ) (blocks : List (List ℕ)) → blocks_in word ≡ Some blocks
        → (1 ≤ length blocks) × All (AreFew MOST_BLOCK_BYTES) blocks }
    ensures lists { (words : List (List ℕ)) (ids : List ℕ) → each_in id_in words ≡ Some ids
        → All (λ n. n ≤ LAST_NUMBER) ids }
{}
