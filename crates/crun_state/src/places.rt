// What stands at a place of a list.
ghost use Rattle.std.specs.Prelude.{◌≡◌, option_copied, slice_get};

pub fn at<T>(items: &[T], i: usize) -> Option<&T>
    ensures { option_copied result ≡ slice_get items.now i }
{
    items.get(i)
}
