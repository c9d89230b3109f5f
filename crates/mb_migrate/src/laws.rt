//! Laws of migration.

ghost use Rattle.mb_migrate.specs.MigrationLaws.{MigratesToOne, MigrationKeepsState, MigratedStaysSo, MigratesOrCannot};

/// A law without a body: an image is migrated to one image only. That image means the same state, and a second
/// migration leaves it as it is. No image both can and cannot be migrated.
pub fn migrations_are_clear()
    ensures one { MigratesToOne }
    ensures kept { MigrationKeepsState }
    ensures again { MigratedStaysSo }
    ensures cannot { MigratesOrCannot }
{}
