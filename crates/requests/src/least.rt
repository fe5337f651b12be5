// The request of smallest number: nothing relies on the order of places.
ghost use Rattle.std.specs.Prelude.{◌≡◌, Bool};
ghost use Rattle.record.specs.Search.{Computes};
ghost use Rattle.requests.specs.Least.{smallest_of};

use crate::records::Request;

// The request of smallest number among those that pass.
pub fn smallest<F: Fn(&Request) -> bool>(requests: &[Request], test: F) -> Option<Request>
    requires { F.IsAlwaysCallable test }
    ensures { (p : _) → Computes F.Fn test p → result ≡ smallest_of p requests.now }
{
    requests
        .iter()
        .filter(|request| test(request))
        .min_by_key(|request| request.number)
        .copied()
}
