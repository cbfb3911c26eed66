ghost use Rattle.std.specs.Prelude.{◌≡◌, None};
ghost use Rattle.std.specs.Option.{option_copied};
ghost use Rattle.eden_model.specs.Paths.{behind_of};
ghost use Rattle.eden_oracle.specs.Fronts.{only_name};

use eden_model::Name;

/// What is behind that front, where the path begins with it.
pub(crate) fn behind<'a>(front: &[Name], path: &'a [Name]) -> Option<&'a [Name]>
    ensures { option_copied result ≡ behind_of front.now path.now }
{
    for k in 0..front.len() {
        if k >= path.len() {
            return None;
        }
        if front[k] != path[k] {
            return None;
        }
    }
    Some(&path[front.len()..])
}

/// The one name behind that front, where the path is one longer.
pub(crate) fn child<'a>(front: &[Name], path: &'a [Name]) -> Option<&'a Name>
    ensures { option_copied result ≡ only_name (behind_of front.now path.now) }
{
    match behind(front, path) {
        None => None,
        Some([name]) => Some(name),
        Some(_) => None,
    }
}
