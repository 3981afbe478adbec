//! The words that leave out a mechanism of the search, so that its worth can be measured.
use search_guide::Policy;

/// Takes the word into the policy. It answers no for a word that is no switch.
fn take(policy: &mut Policy, word: &str) -> bool {
    match word {
        "--no-distances" => policy.most_rows = 0,
        "--no-new-literals" => policy.new_literals = false,
        "--no-restarts" => policy.restarts = false,
        "--no-minimization" => policy.minimization = false,
        "--no-saved-phases" => policy.saved_phases = false,
        "--no-forgetting" => policy.forgetting = false,
        "--pure-in-net" => policy.pure_apart = false,
        "--no-ladders" => policy.ladders = false,
        _ => return false,
    }
    true
}

/// The policy without what the words leave out; nothing where a word, but the first, which is the program's name, is no
/// switch.
pub fn policy_of(words: &[String]) -> Option<Policy> {
    let mut policy = Policy::default();
    for word in words.iter().skip(1) {
        if !take(&mut policy, word) {
            return None;
        }
    }
    Some(policy)
}
