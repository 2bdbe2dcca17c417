//! A text fixes its mesh.

ghost use Rattle.std.specs.Prelude.{◌≡◌};
ghost use Rattle.iso_model.specs.Faces.{Mesh};
ghost use Rattle.iso_formats.specs.MeshText.{TextFixesMesh};
ghost use Rattle.iso_model.specs.Dimensions.{IsDimension};

/// Different meshes of one dimension have different texts: two meshes with the same text are the same.
pub fn text_law<const D: usize>()
    requires dimension { IsDimension D }
    ensures law { (m n : Mesh) → TextFixesMesh D m n }
{}
