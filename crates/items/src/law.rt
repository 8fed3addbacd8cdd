// What holds of numbers in texts.
ghost use Rattle.items.specs.Theorems.{NumberTells};

pub fn numbers_stand()
    ensures { NumberTells }
{}
