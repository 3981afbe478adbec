//! What can be asked of the program itself.
ghost use Rattle.std.specs.Prelude.{◌≡◌};
ghost use Rattle.smt_script.specs.Informing.{information_of};

/// What `get-info` can tell.
#[derive(Clone, Copy, Debug, PartialEq, Eq)]
pub enum Information {
    Name,
    Version,
    Authors,
    /// What follows an error.
    ErrorBehavior,
    /// The number of levels above the bottom.
    AssertionStackLevels,
}

/// What a keyword names, of all that can be told.
#[tactic(auto, unfolding(crate::specs::Informing::information_of))]
pub fn information_of(keyword: &[u8]) -> Option<Information>
    ensures { result ≡ information_of keyword.now }
{
    if keyword == b":name".as_slice() {
        Some(Information::Name)
    } else if keyword == b":version".as_slice() {
        Some(Information::Version)
    } else if keyword == b":authors".as_slice() {
        Some(Information::Authors)
    } else if keyword == b":error-behavior".as_slice() {
        Some(Information::ErrorBehavior)
    } else if keyword == b":assertion-stack-levels".as_slice() {
        Some(Information::AssertionStackLevels)
    } else {
        None
    }
}
