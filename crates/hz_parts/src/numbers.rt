ghost use Rattle.std.specs.Prelude.{◌≡◌, List};
ghost use Rattle.hz_tree.specs.declared.index.FunctionInfo.{FunctionInfo};
ghost use Rattle.hz_tree.specs.trees.FunctionTrees as numbered;

/// The numbers of the functions of a source.
pub trait Numbers {
    ghost functions: { Self → List FunctionInfo };

    /// The number of the function that starts at this place, in bytes.
    fn number_at(&self, place: usize) -> u32
        ensures { result ≡ numbered.number_at (functions self.now) place };
}
