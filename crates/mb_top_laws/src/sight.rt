//! Laws of what `app` tells of an image.

ghost use Rattle.mb_top_laws.specs.AppImageLaws.{ImagesAlikeHaveEqualEnds, ImagesAlikeHaveEqualLines, LayersAreSeen, SecretsAreSeen};

/// Over two images that agree on their layers, on the code of a layer and on the secrets of the regions not below it,
/// `app` has the same ends and prints the same line, whatever else differs. It leaves all files as they were. Where
/// layers or such secrets differ it can print another line.
pub fn app_tells_no_more_of_images()
    ensures ends { ImagesAlikeHaveEqualEnds }
    ensures lines { ImagesAlikeHaveEqualLines }
    ensures layers { LayersAreSeen }
    ensures secrets { SecretsAreSeen }
{}
